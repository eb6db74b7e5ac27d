ghost use Rattle.std.specs.Prelude.{◌≡◌, ◌&&◌, ◌||◌, ◌==◌, length, min, nat_lt, take, drop, ◌++◌};
ghost use Rattle.outside_io.specs.MemoryNet.{new_line, read_line, wrote_line};
ghost use Rattle.outside_io.specs.Net.{is_end};

use crate::address::Address;
use crate::unread::copy_front;
use std::marker::Model;

/// A connection of a net in memory: the bytes of the peer, of which a front has been read, and which of the bytes written
/// over all connections are its own.
#[derive(Drop)]
pub(crate) struct Line {
    dialled: Address,
    bytes: Vec<u8>,
    at: usize,
    at_end: bool,
    starts: usize,
    ends: usize,
}

impl Model for Line {
    ghost use Rattle.std.specs.Prelude.{◌≤◌, take, drop, vec_len};
    ghost use Rattle.outside_io.specs.MemoryNet.{MemoryLine};

    ghost Value = { MemoryLine };

    ghost view = { λ l. record {
      dialled = l.dialled;
      got = take l.at l.bytes.items;
      left = drop l.at l.bytes.items;
      at_end = l.at_end;
      starts = l.starts;
      ends = l.ends;
    } };

    ghost invariant = { λ l. l.at ≤ vec_len l.bytes };
}

impl Line {
    /// One on which nothing was said; what is written on it begins at this place.
    pub(crate) fn new(dialled: Address, bytes: Vec<u8>, place: usize) -> Line
        ensures { result ≡ new_line dialled bytes.items place }
    {
        Line {
            dialled,
            bytes,
            at: 0,
            at_end: false,
            starts: place,
            ends: place,
        }
    }

    /// Moves bytes of the peer into the front of the buffer, `most` or as many as there are and have room, and says how many.
    pub(crate) fn read(&mut self, into: &mut [u8], most: usize) -> usize
        ensures amount { result ≡ min most (min (length into.old) (length self.old.left)) }
        ensures given { into.new ≡ take result self.old.left ++ drop result into.old }
        ensures after { self.new ≡ read_line (take result self.old.left) (drop result self.old.left) (is_end result into.new) self.old }
    {
        let count = copy_front(&self.bytes[self.at..], into, most);
        self.at += count;
        self.at_end = is_met(count, into.len(), self.at_end);
        count
    }

    /// Says where the bytes written on it end now.
    pub(crate) fn set_end(&mut self, place: usize)
        ensures { self.new ≡ wrote_line place self.old }
    {
        self.ends = place;
    }

    pub(crate) fn dialled(&self) -> &[u8]
        ensures { result.now ≡ self.now.dialled }
    {
        self.dialled.as_slice()
    }

    pub(crate) fn got(&self) -> &[u8]
        ensures { result.now ≡ self.now.got }
    {
        &self.bytes[..self.at]
    }

    pub(crate) fn is_at_end(&self) -> bool
        ensures { result ≡ self.now.at_end }
    {
        self.at_end
    }

    pub(crate) fn starts(&self) -> usize
        ensures { result ≡ self.now.starts }
    {
        self.starts
    }

    pub(crate) fn ends(&self) -> usize
        ensures { result ≡ self.now.ends }
    {
        self.ends
    }
}

/// Whether the end is met behind a read that gave so many bytes into so much room.
fn is_met(count: usize, room: usize, before: bool) -> bool
    ensures { result ≡ ((count == 0 && nat_lt 0 room) || before) }
{
    (count == 0 && room > 0) || before
}
