// A disk in memory.
ghost use Rattle.std.specs.Prelude.{◌≡◌, ◌<◌, ◌+◌, ◌≤◌, ◌↔◌, Some, None, [], length, max, IfOk, IfSome, OnOk, OnErr, IsOk, IsTrue, is_ok, if◌then◌else◌, nat_le, true};
ghost use Rattle.std.specs.Option.{ForSome};
ghost use Rattle.outside_io.specs.Causes.{HasCause, IsCount};
ghost use Rattle.disk_store.specs.Disk.{IsImage, GivesBytes, MayHaveWritten, at_rest, after_write, after_sync};
ghost use Rattle.disk_store.specs.Crash.{kept};
ghost use Rattle.disk_store.specs.Fates.{turn_of, succeeded, was_done};
ghost use Rattle.disk_store.specs.Memory.{MemState, after_call, if_done, outlook_of, keep_of, cleared};

use crate::fate::{Fate, Turn};
use crate::places::Places;
use crate::{Disk, Keep, Stop};
use outside_io::Failed;
use std::alloc::AllocError;
use std::marker::Model;

/// A disk in memory, which can be made to stop at a call and to crash. No call of `Disk` takes memory.
#[derive(Drop)]
pub struct MemDisk {
    places: Places,
    fate: Fate,
}

impl Model for MemDisk {
    ghost use Rattle.disk_store.specs.Disk.{IsImage};
    ghost use Rattle.disk_store.specs.Memory.{MemState};

    ghost Value = { MemState };

    ghost view = { λ m. record { disk = m.places.disk; room = m.places.room; fate = m.fate } };

    ghost invariant = { λ m. IsImage m.places.disk m.places.disk.bytes };
}

impl MemDisk {
    /// A disk that holds these bytes, all of them synced; the room is its greatest length.
    pub fn new(bytes: Vec<u8>, room: u64) -> Result<MemDisk, AllocError>
        requires { length bytes.items ≤ room }
        ensures { IfOk result (λ disk. disk ≡ record {
          disk = at_rest bytes.items;
          room = room;
          fate = record { script = None; fails = []; calls = 0; faults = 0 };
        }) }
    {
        let fate = Fate::new(*bytes.allocator());
        let places = Places::new(bytes, room)?;
        Ok(MemDisk { places, fate })
    }

    /// Makes room for so many bytes past the end. After an `Err` the disk is as before.
    pub fn make_room(&mut self, more: u64) -> Result<(), AllocError>
        ensures ok { OnOk result (self.new ≡ record self.old { room = max self.old.room (length self.old.disk.bytes + more) }) }
        ensures err { OnErr result (self.new ≡ self.old) }
    {
        self.places.make_room(more)
    }

    /// Makes the call with the stop's number, counted from here, fail though it is done, and each later
    /// call fail undone.
    pub fn script(&mut self, stop: Stop)
        requires { 0 < stop.call }
        ensures { self.new ≡ record self.old { fate = record self.old.fate { script = Some (record { left = stop.call; keep = stop.keep }) } } }
    {
        self.fate.set_script(stop);
    }

    /// Ends the script and leaves one image: what the script keeps, or what is synced.
    pub fn crash(&mut self)
        ensures left { self.new ≡ record self.old {
          disk = at_rest (kept (keep_of self.old.fate.script) self.old.disk);
          fate = record self.old.fate { script = None };
        } }
        ensures image { IsImage self.old.disk self.new.disk.bytes }
    {
        let keep = self.fate.end_script();
        self.places.crash(keep);
    }

    /// Makes the calls with these numbers, from 0 and counted from here, fail undone.
    pub fn fail_calls(&mut self, fails: Vec<u64>)
        ensures { self.new ≡ record self.old { fate = record self.old.fate { fails = fails.items; calls = 0 } } }
    {
        self.fate.set_fails(fails);
    }

    /// Makes the disk empty, without a script and without a list of failing calls.
    pub fn clear(&mut self)
        ensures { self.new ≡ cleared self.old }
    {
        self.places.clear();
        self.fate.clear();
    }
}

impl Disk for MemDisk {
    ghost state = { λ m. Some m.disk };

    ghost past = { λ m. None };

    ghost outlook = { λ m. outlook_of m.fate.fails m.room m.fate.script };

    ghost keeps = { λ m. Some (keep_of m.fate.script) };

    ghost faults = { λ m. m.fate.faults };

    fn len(&mut self) -> Result<u64, Failed>
        ensures answers { is_ok result ≡ succeeded (turn_of true self.old.fate) }
        ensures length { IfOk result (λ size. size ≡ length self.old.disk.bytes) }
        ensures exact { self.new ≡ after_call (turn_of true self.old.fate) self.old.disk self.old }
        ensures keeps { keep_of self.new.fate.script ≡ keep_of self.old.fate.script }
        ensures count { IsCount self.new.fate.faults }
        ensures cause { HasCause self.old.fate.faults self.new.fate.faults result }
        ensures image { IsImage self.new.disk self.new.disk.bytes }
    {
        match self.fate.take_turn(true) {
            Turn::Done => Ok(self.places.len()),
            Turn::Stopped | Turn::Skipped => Err(Failed),
        }
    }

    fn read_at(&mut self, at: u64, into: &mut [u8]) -> Result<usize, Failed>
        ensures answers { is_ok result ≡ succeeded (turn_of true self.old.fate) }
        ensures bytes { IfOk result (λ count. GivesBytes self.old.disk.bytes at into.new count) }
        ensures exact { self.new ≡ after_call (turn_of true self.old.fate) self.old.disk self.old }
        ensures keeps { keep_of self.new.fate.script ≡ keep_of self.old.fate.script }
        ensures count { IsCount self.new.fate.faults }
        ensures cause { HasCause self.old.fate.faults self.new.fate.faults result }
        ensures image { IsImage self.new.disk self.new.disk.bytes }
    {
        match self.fate.take_turn(true) {
            Turn::Done => Ok(self.places.read(at, into)),
            Turn::Stopped | Turn::Skipped => Err(Failed),
        }
    }

    #[tactic(auto, using(crate::proofs::Torn::torn_write, crate::proofs::Torn::torn_none))]
    fn write_at(&mut self, at: u64, from: &[u8]) -> Result<(), Failed>
        requires { at ≤ length self.old.disk.bytes }
        ensures answers { is_ok result ≡ succeeded (turn_of (nat_le (at + length from.now) self.old.room) self.old.fate) }
        ensures exact { let turn = turn_of (nat_le (at + length from.now) self.old.room) self.old.fate in
            self.new ≡ after_call turn (if_done turn (after_write at from.now self.old.disk) self.old.disk) self.old }
        ensures torn { OnErr result (MayHaveWritten at (length from.now) (Some self.old.disk) (Some self.new.disk)) }
        ensures keeps { keep_of self.new.fate.script ≡ keep_of self.old.fate.script }
        ensures count { IsCount self.new.fate.faults }
        ensures cause { HasCause self.old.fate.faults self.new.fate.faults result }
        ensures image { IsImage self.new.disk self.new.disk.bytes }
    {
        let fits = self.places.fits(at, from.len());
        let turn = self.fate.take_turn(fits);
        if turn != Turn::Skipped {
            self.places.write(at, from);
        }
        turn.answer()
    }

    fn sync(&mut self) -> Result<(), Failed>
        ensures answers { is_ok result ≡ succeeded (turn_of true self.old.fate) }
        ensures exact { self.new ≡ after_call (turn_of true self.old.fate)
            (if succeeded (turn_of true self.old.fate) then after_sync self.old.disk else self.old.disk) self.old }
        ensures keeps { keep_of self.new.fate.script ≡ keep_of self.old.fate.script }
        ensures count { IsCount self.new.fate.faults }
        ensures cause { HasCause self.old.fate.faults self.new.fate.faults result }
        ensures image { IsImage self.new.disk self.new.disk.bytes }
    {
        let turn = self.fate.take_turn(true);
        // A sync that answers that it failed counts as none.
        if turn == Turn::Done {
            self.places.sync();
        }
        turn.answer()
    }
}
