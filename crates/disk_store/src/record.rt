// A disk in memory that tells all that it was.
ghost use Rattle.std.specs.Prelude.{◌≡◌, ◌&&◌, ◌+◌, ◌-◌, ◌≤◌, ◌∷◌, [], ◌++◌, Some, None, length, IfOk, OnOk, OnErr, IsOk, is_ok, nat_lt, nat_le};
ghost use Rattle.outside_io.specs.Causes.{HasCause, IsCount, one_more};
ghost use Rattle.disk_store.specs.Disk.{IsImage, GivesBytes, MayHaveWritten, at_rest, after_write, after_sync};
ghost use Rattle.disk_store.specs.Records.{RecordState};

use crate::Disk;
use crate::history::History;
use outside_io::{Failed, FaultCount};
use std::alloc::AllocError;
use std::marker::Model;

/// A disk in memory that keeps a record of each write and sync. No call of `Disk` takes memory.
#[derive(Drop)]
pub struct RecordDisk {
    history: History,
    faults: FaultCount,
}

impl Model for RecordDisk {
    ghost use Rattle.outside_io.specs.Causes.{IsCount};
    ghost use Rattle.disk_store.specs.Disk.{IsImage};
    ghost use Rattle.disk_store.specs.Records.{RecordState};

    ghost Value = { RecordState };

    ghost view = { λ r. record {
      past = r.history.past;
      disk = r.history.disk;
      calls = r.history.calls;
      more = r.history.more;
      faults = r.faults;
    } };

    ghost invariant = { λ r. IsImage r.history.disk r.history.disk.bytes × IsCount r.faults };
}

impl RecordDisk {
    /// A disk that holds these bytes, all of them synced, with the memory for so many writes and syncs,
    /// which write so many bytes together.
    pub fn new(bytes: Vec<u8>, calls: u64, more: u64) -> Result<RecordDisk, AllocError>
        ensures { IfOk result (λ disk. disk ≡ record { past = []; disk = at_rest bytes.items; calls = calls; more = more; faults = 0 }) }
    {
        let history = History::new(bytes, calls, more)?;
        Ok(RecordDisk {
            history,
            faults: FaultCount::new(),
        })
    }
}

impl Disk for RecordDisk {
    ghost state = { λ r. Some r.disk };

    ghost past = { λ r. Some r.past };

    ghost outlook = { λ r. None };

    ghost keeps = { λ r. None };

    ghost faults = { λ r. r.faults };

    fn len(&mut self) -> Result<u64, Failed>
        ensures answers { IsOk result }
        ensures length { IfOk result (λ size. size ≡ length self.old.disk.bytes) }
        ensures exact { self.new ≡ self.old }
        ensures count { IsCount self.new.faults }
        ensures image { IsImage self.new.disk self.new.disk.bytes }
    {
        Ok(self.history.len())
    }

    fn read_at(&mut self, at: u64, into: &mut [u8]) -> Result<usize, Failed>
        ensures answers { IsOk result }
        ensures bytes { IfOk result (λ count. GivesBytes self.old.disk.bytes at into.new count) }
        ensures exact { self.new ≡ self.old }
        ensures count { IsCount self.new.faults }
        ensures image { IsImage self.new.disk self.new.disk.bytes }
    {
        Ok(self.history.read(at, into))
    }

    #[tactic(auto, using(crate::proofs::Torn::torn_none))]
    fn write_at(&mut self, at: u64, from: &[u8]) -> Result<(), Failed>
        requires { at ≤ length self.old.disk.bytes }
        ensures answers { is_ok result ≡ (nat_lt 0 self.old.calls && nat_le (length from.now) self.old.more) }
        ensures ok { OnOk result (self.new ≡ record {
          past = self.old.past ++ self.old.disk ∷ [];
          disk = after_write at from.now self.old.disk;
          calls = self.old.calls - 1;
          more = self.old.more - length from.now;
          faults = self.old.faults;
        }) }
        ensures err { OnErr result (self.new ≡ record self.old { faults = one_more self.old.faults }) }
        ensures torn { OnErr result (MayHaveWritten at (length from.now) (Some self.old.disk) (Some self.new.disk)) }
        ensures image { IsImage self.new.disk self.new.disk.bytes }
        ensures count { IsCount self.new.faults }
        ensures cause { HasCause self.old.faults self.new.faults result }
    {
        if !self.history.has_room(from.len()) {
            return Err(self.faults.count_fault());
        }
        self.history.write(at, from);
        Ok(())
    }

    fn sync(&mut self) -> Result<(), Failed>
        ensures answers { is_ok result ≡ nat_lt 0 self.old.calls }
        ensures ok { OnOk result (self.new ≡ record {
          past = self.old.past ++ self.old.disk ∷ [];
          disk = after_sync self.old.disk;
          calls = self.old.calls - 1;
          more = self.old.more;
          faults = self.old.faults;
        }) }
        ensures err { OnErr result (self.new ≡ record self.old { faults = one_more self.old.faults }) }
        ensures image { IsImage self.new.disk self.new.disk.bytes }
        ensures count { IsCount self.new.faults }
        ensures cause { HasCause self.old.faults self.new.faults result }
    {
        if !self.history.has_room(0) {
            return Err(self.faults.count_fault());
        }
        self.history.sync();
        Ok(())
    }
}
