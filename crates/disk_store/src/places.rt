// The bytes of a disk in memory, as they read and as they were synced, and the marks of what was written.
ghost use Rattle.std.specs.Prelude.{◌≡◌, ◌+◌, ◌-◌, ◌≤◌, [], max, min, length, take, drop, IfOk, OnOk, OnErr, nat_le, vec_capacity, replicate, false};
ghost use Rattle.disk_store.specs.Disk.{IsImage, GivesBytes, at_rest, after_write, after_sync};
ghost use Rattle.disk_store.specs.Crash.{kept, fill_written};
ghost use Rattle.disk_store.specs.Places.{Stored};

use crate::Keep;
use crate::cells::{mark, put_bytes};
use crate::window::Window;
use std::alloc::AllocError;
use std::marker::Model;

#[derive(Drop)]
pub(crate) struct Places {
    bytes: Vec<u8>,
    synced: Vec<u8>,
    written: Vec<bool>,
    window: Window,
    room: u64,
}

impl Model for Places {
    ghost use Rattle.std.specs.Prelude.{vec_capacity};
    ghost use Rattle.disk_store.specs.Places.{Stored, HasRoom};

    ghost Value = { Stored };

    ghost view = { λ p. record {
      disk = record { bytes = p.bytes.items; synced = p.synced.items; written = p.written.items };
      room = p.room;
    } };

    ghost invariant = { λ p. HasRoom (record { bytes = p.bytes.items; synced = p.synced.items; written = p.written.items })
        p.window p.room (vec_capacity p.bytes) (vec_capacity p.synced) (vec_capacity p.written) };
}

impl Places {
    /// These bytes, all of them synced, with the memory for the room.
    pub(crate) fn new(mut bytes: Vec<u8>, room: u64) -> Result<Places, AllocError>
        requires { length bytes.items ≤ room }
        ensures made { IfOk result (λ places. places ≡ record { disk = at_rest bytes.items; room = room }) }
        ensures image { IfOk result (λ places. IsImage places.disk places.disk.bytes) }
    {
        let alloc = *bytes.allocator();
        let size = bytes.len();
        bytes.reserve(room as usize - size)?;
        let mut synced = Vec::with_capacity(alloc, room as usize)?;
        synced.extend_from_slice(&bytes)?;
        let mut written = Vec::with_capacity(alloc, room as usize)?;
        written.resize(size, false)?;
        Ok(Places {
            bytes,
            synced,
            written,
            window: Window::EMPTY,
            room,
        })
    }

    pub(crate) fn len(&self) -> u64
        ensures length { result ≡ length self.now.disk.bytes }
        ensures image { IsImage self.now.disk self.now.disk.bytes }
        ensures fits { length self.now.disk.bytes ≤ self.now.room }
    {
        self.bytes.len() as u64
    }

    pub(crate) fn read(&self, at: u64, into: &mut [u8]) -> usize
        ensures { GivesBytes self.now.disk.bytes at into.new result }
    {
        copy_from(&self.bytes, at, into)
    }

    /// Writes over the bytes from a place on, and past the end.
    pub(crate) fn write(&mut self, at: u64, from: &[u8])
        requires place { at ≤ length self.old.disk.bytes }
        requires room { at + length from.now ≤ self.old.room }
        ensures written { self.new ≡ record { disk = after_write at from.now self.old.disk; room = self.old.room } }
        ensures image { IsImage self.new.disk self.new.disk.bytes }
    {
        put_bytes(&mut self.bytes, at as usize, from);
        mark(&mut self.written, at as usize, from.len(), true);
        self.window = self.window.widened(at as usize, at as usize + from.len());
    }

    /// Makes all that was written durable. It costs what was written since the last sync.
    pub(crate) fn sync(&mut self)
        ensures synced { self.new ≡ record { disk = after_sync self.old.disk; room = self.old.room } }
        ensures image { IsImage self.new.disk self.new.disk.bytes }
    {
        let Window { low, high } = self.window;
        put_bytes(&mut self.synced, low, &self.bytes[low..high]);
        mark(&mut self.written, low, high - low, false);
        self.window = Window::EMPTY;
    }

    /// Leaves one image, all of it synced.
    #[tactic(auto, using(crate::proofs::Fill::kept_image))]
    pub(crate) fn crash(&mut self, keep: Keep)
        ensures left { self.new ≡ record { disk = at_rest (kept keep self.old.disk); room = self.old.room } }
        ensures image { IsImage self.old.disk (kept keep self.old.disk) }
        ensures settled { IsImage self.new.disk self.new.disk.bytes }
    {
        match keep {
            Keep::All => {}
            Keep::Nothing => {
                self.bytes.clear();
                self.bytes.extend_from_slice(&self.synced).unwrap();
            }
            Keep::Byte(byte) => fill(&mut self.bytes, &self.written, byte),
        }
        settle(&self.bytes, &mut self.synced, &mut self.written);
        self.window = Window::EMPTY;
    }

    /// Makes it empty.
    pub(crate) fn clear(&mut self)
        ensures left { self.new ≡ record { disk = at_rest []; room = self.old.room } }
        ensures image { IsImage self.new.disk self.new.disk.bytes }
    {
        self.bytes.clear();
        self.synced.clear();
        self.written.clear();
        self.window = Window::EMPTY;
    }

    /// Makes room for so many bytes past the end.
    pub(crate) fn make_room(&mut self, more: u64) -> Result<(), AllocError>
        ensures ok { OnOk result (self.new ≡ record { disk = self.old.disk; room = max self.old.room (length self.old.disk.bytes + more) }) }
        ensures err { OnErr result (self.new ≡ self.old) }
    {
        let size = self.bytes.len() as u64;
        let Some(room) = size.checked_add(more) else {
            return Err(AllocError);
        };
        if room > self.room {
            self.bytes.reserve(more as usize)?;
            self.synced.reserve(room as usize - self.synced.len())?;
            self.written.reserve(more as usize)?;
            self.room = room;
        }
        Ok(())
    }

    /// Whether so many bytes from a place on end within the room.
    pub(crate) fn fits(&self, at: u64, size: usize) -> bool
        requires { at ≤ length self.now.disk.bytes }
        ensures { result ≡ nat_le (at + size) self.now.room }
    {
        size as u64 <= self.room - at
    }
}

/// Copies the bytes from a place on, up to the end or to the buffer's length, and gives their number.
pub(crate) fn copy_from(bytes: &[u8], at: u64, into: &mut [u8]) -> usize
    ensures { GivesBytes bytes.now at into.new result }
{
    let start = bytes.len().min(at as usize);
    let rest = bytes.split_at(start).1;
    let count = rest.len().min(into.len());
    into[..count].copy_from_slice(&rest[..count]);
    count
}

/// Notes these bytes as synced, and no place as written.
fn settle(bytes: &[u8], synced: &mut Vec<u8>, written: &mut Vec<bool>)
    requires synced_room { length bytes.now ≤ vec_capacity synced.old }
    requires written_room { length bytes.now ≤ vec_capacity written.old }
    ensures synced { synced.new.items ≡ bytes.now }
    ensures written { written.new.items ≡ replicate (length bytes.now) false }
    ensures synced_kept { vec_capacity synced.old ≤ vec_capacity synced.new }
    ensures written_kept { vec_capacity written.old ≤ vec_capacity written.new }
{
    synced.clear();
    synced.extend_from_slice(bytes).unwrap();
    written.clear();
    written.resize(bytes.len(), false).unwrap();
}

/// Puts a byte into each place that was written.
#[tactic(auto, using(crate::proofs::Fill::fill_more))]
fn fill(bytes: &mut [u8], written: &[bool], byte: u8)
    requires { length written.now ≤ length bytes.old }
    ensures { bytes.new ≡ fill_written byte written.now bytes.old }
{
    for (place, was_written) in written.iter().enumerate() {
        if *was_written {
            bytes[place] = byte;
        }
    }
}
