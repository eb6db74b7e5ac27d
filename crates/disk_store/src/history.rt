// The record of what was written and synced on a disk in memory.
ghost use Rattle.std.specs.Prelude.{◌≡◌, ◌+◌, ◌-◌, ◌<◌, ◌≤◌, ◌∷◌, [], ◌++◌, length, IfOk, nat_lt, nat_le, ◌&&◌};
ghost use Rattle.disk_store.specs.Disk.{IsImage, GivesBytes, at_rest, after_write, after_sync};

use crate::cells::put_bytes;
use crate::places::copy_from;
use std::alloc::AllocError;
use std::marker::Model;

/// One change of the disk. The bytes of all writes stand in one list.
#[derive(Clone, Copy)]
pub(crate) enum Step {
    Write(u64, usize),
    Sync,
}

#[derive(Drop)]
pub(crate) struct History {
    first: Vec<u8>,
    steps: Vec<Step>,
    pool: Vec<u8>,
    bytes: Vec<u8>,
    calls: u64,
    more: u64,
}

impl Model for History {
    ghost use Rattle.std.specs.Prelude.{vec_capacity};
    ghost use Rattle.disk_store.specs.Disk.{at_rest};
    ghost use Rattle.disk_store.specs.Records.{Recorded, IsRecord, disk_after, disks_before};

    ghost Value = { Recorded };

    ghost view = { λ h. record {
      past = disks_before (at_rest h.first.items) h.steps.items h.pool.items;
      disk = disk_after (at_rest h.first.items) h.steps.items h.pool.items;
      calls = h.calls;
      more = h.more;
    } };

    ghost invariant = { λ h. IsRecord (disk_after (at_rest h.first.items) h.steps.items h.pool.items)
        h.steps.items h.pool.items h.bytes.items h.calls h.more
        (vec_capacity h.steps) (vec_capacity h.pool) (vec_capacity h.bytes) };
}

impl History {
    ghost use Rattle.disk_store.specs.Records.{Recorded};

    /// These bytes, all of them synced, with the memory for so many changes that write so many bytes.
    pub(crate) fn new(mut bytes: Vec<u8>, calls: u64, more: u64) -> Result<History, AllocError>
        ensures made { IfOk result (λ history. history ≡ record { past = []; disk = at_rest bytes.items; calls = calls; more = more }) }
        ensures image { IfOk result (λ history. IsImage history.disk history.disk.bytes) }
    {
        let alloc = *bytes.allocator();
        let first = Vec::from_slice(alloc, &bytes)?;
        bytes.reserve(more as usize)?;
        Ok(History {
            first,
            steps: Vec::with_capacity(alloc, calls as usize)?,
            pool: Vec::with_capacity(alloc, more as usize)?,
            bytes,
            calls,
            more,
        })
    }

    pub(crate) fn len(&self) -> u64
        ensures { result ≡ length self.now.disk.bytes }
    {
        self.bytes.len() as u64
    }

    pub(crate) fn read(&self, at: u64, into: &mut [u8]) -> usize
        ensures { GivesBytes self.now.disk.bytes at into.new result }
    {
        copy_from(&self.bytes, at, into)
    }

    /// Whether one more change that writes so many bytes may be made.
    pub(crate) fn has_room(&self, size: usize) -> bool
        ensures { result ≡ (nat_lt 0 self.now.calls && nat_le size self.now.more) }
    {
        0 < self.calls && size as u64 <= self.more
    }

    #[tactic(auto, using(crate::proofs::Records::after_one_write, crate::proofs::Records::before_one_write, crate::proofs::Records::written_more))]
    pub(crate) fn write(&mut self, at: u64, from: &[u8])
        requires place { at ≤ length self.old.disk.bytes }
        requires calls { 0 < self.old.calls }
        requires more { length from.now ≤ self.old.more }
        ensures written { self.new ≡ record {
          past = self.old.past ++ self.old.disk ∷ [];
          disk = after_write at from.now self.old.disk;
          calls = self.old.calls - 1;
          more = self.old.more - length from.now;
        } }
        ensures image { IsImage self.new.disk self.new.disk.bytes }
    {
        self.steps.push(Step::Write(at, from.len())).unwrap();
        self.pool.extend_from_slice(from).unwrap();
        put_bytes(&mut self.bytes, at as usize, from);
        self.calls -= 1;
        self.more -= from.len() as u64;
    }

    #[tactic(auto, using(crate::proofs::Records::after_one_sync, crate::proofs::Records::before_one_sync, crate::proofs::Records::written_same))]
    pub(crate) fn sync(&mut self)
        requires { 0 < self.old.calls }
        ensures synced { self.new ≡ record {
          past = self.old.past ++ self.old.disk ∷ [];
          disk = after_sync self.old.disk;
          calls = self.old.calls - 1;
          more = self.old.more;
        } }
        ensures image { IsImage self.new.disk self.new.disk.bytes }
    {
        self.steps.push(Step::Sync).unwrap();
        self.calls -= 1;
    }
}
