ghost use Rattle.std.specs.Prelude.{◌≡◌, ◌≢◌, ◌<◌, ◌≤◌, ◌+◌, ◌-◌, vec_len, vec_capacity, ◌++◌, ◌∷◌, [], true, false, length, map, min, take, drop, vec_items, slice_index_or, IfOk};
ghost use Rattle.outside_io.specs.MemoryNet.{MemoryPeers, lent_talk};
ghost use Rattle.outside_io.specs.Net.{first_list, fresh_talk, is_end, more, most_address_bytes, on_last};
ghost use Rattle.outside_io.specs.Seen.{Talk};

use crate::Connection;
use crate::address::Address;
use crate::line::Line;
use std::alloc::{AllocError, Global};
use std::collections::VecDeque;
use std::marker::Model;

/// The peers of a net in memory, and what was said with those whose connections were taken. All memory is taken in `new`.
#[derive(Drop)]
pub(crate) struct Peers {
    waiting: VecDeque<Vec<u8>>,
    lines: Vec<Line>,
    /// The bytes written over all connections, in order.
    written: Vec<u8>,
    room: usize,
}

impl Model for Peers {
    ghost use Rattle.std.specs.Prelude.{◌≤◌, ◌+◌, length, map, vec_items, vec_len, vec_capacity};
    ghost use Rattle.std.specs.VecDeque.{deque_len};
    ghost use Rattle.outside_io.specs.MemoryNet.{AreLaid, MemoryPeers, left_of, talk_of};

    ghost Value = { MemoryPeers };

    ghost view = { λ p. record {
      waiting = map vec_items p.waiting.items;
      left = left_of p.lines.items;
      talks = map (talk_of p.written.items) p.lines.items;
      room = p.room;
    } };

    ghost invariant = { λ p. (vec_len p.written + p.room ≤ vec_capacity p.written)
        × (vec_len p.lines + deque_len p.waiting ≤ vec_capacity p.lines)
        × AreLaid 0 p.lines.items (length p.written.items) };
}

impl Peers {
    pub(crate) fn new(
        alloc: Global,
        waiting: Vec<Vec<u8>>,
        room: usize,
    ) -> Result<Peers, AllocError>
        ensures { IfOk result (λ peers. peers ≡ record { waiting = map vec_items waiting.items; left = []; talks = []; room = room }) }
    {
        let lines = Vec::with_capacity(alloc, waiting.len())?;
        let written = Vec::with_capacity(alloc, room)?;
        Ok(Peers {
            waiting: VecDeque::from(waiting),
            lines,
            written,
            room,
        })
    }

    /// Takes the connection of the next peer, if one waits.
    #[tactic(auto, using(crate::proofs::Lines::laid_new, crate::proofs::Lines::left_new, crate::proofs::Lines::talks_new))]
    pub(crate) fn take_next(&mut self, dialled: &str) -> bool
        requires { length dialled.now ≤ most_address_bytes }
        ensures some { result ≡ true → (self.old.waiting ≢ []) × (self.new ≡ record {
          waiting = drop 1 self.old.waiting;
          left = first_list self.old.waiting;
          talks = self.old.talks ++ fresh_talk dialled.now ∷ [];
          room = self.old.room;
        }) }
        ensures none { result ≡ false → (self.old.waiting ≡ []) × (self.new ≡ self.old) }
    {
        match self.waiting.pop_front() {
            Some(bytes) => {
                let line = Line::new(Address::of(dialled), bytes, self.written.len());
                self.lines.push(line).unwrap();
                true
            }
            None => false,
        }
    }

    /// Reads from the last peer taken, at most `most` bytes, and says how many came.
    pub(crate) fn read(&mut self, into: &mut [u8], most: usize) -> usize
        requires { 0 < length self.old.talks }
        ensures amount { result ≡ min most (min (length into.old) (length self.old.left)) }
        ensures given { into.new ≡ take result self.old.left ++ drop result into.old }
        ensures after { self.new ≡ record self.old {
          left = drop result self.old.left;
          talks = on_last (more [] (take result self.old.left) (is_end result into.new)) self.old.talks;
        } }
    {
        let last = self.lines.len() - 1;
        let line = &mut self.lines[last];
        line.read(into, most)
    }

    /// Writes these bytes to the last peer taken.
    pub(crate) fn write(&mut self, piece: &[u8])
        requires some { 0 < length self.old.talks }
        requires room { length piece.now ≤ self.old.room }
        ensures { self.new ≡ record self.old {
          talks = on_last (more piece.now [] false) self.old.talks;
          room = self.old.room - length piece.now;
        } }
    {
        append(&mut self.written, piece);
        self.room -= piece.len();
        let end = self.written.len();
        let last = self.lines.len() - 1;
        let line = &mut self.lines[last];
        line.set_end(end);
    }

    /// How many more bytes may be written.
    pub(crate) fn room(&self) -> usize
        ensures { result ≡ self.now.room }
    {
        self.room
    }

    /// How many connections were taken.
    pub(crate) fn taken(&self) -> usize
        ensures { result ≡ length self.now.talks }
    {
        self.lines.len()
    }

    /// What was said on a connection; they are numbered from 0.
    #[tactic(auto, using(crate::proofs::Lines::talk_at))]
    pub(crate) fn connection(&self, number: usize) -> Connection<'_>
        requires { number < length self.now.talks }
        ensures { (d : Talk) → lent_talk result ≡ slice_index_or self.now.talks number d }
    {
        let line = &self.lines[number];
        Connection {
            dialled: line.dialled(),
            sent: part(&self.written, line.starts(), line.ends()),
            got: line.got(),
            at_end: line.is_at_end(),
        }
    }
}

/// Puts a piece for which there is room behind the bytes.
fn append(bytes: &mut Vec<u8>, piece: &[u8])
    requires { vec_len bytes.old + length piece.now ≤ vec_capacity bytes.old }
    ensures items { bytes.new.items ≡ bytes.old.items ++ piece.now }
    ensures len { vec_len bytes.new ≡ vec_len bytes.old + length piece.now }
    ensures capacity { vec_capacity bytes.old ≤ vec_capacity bytes.new }
{
    bytes.extend_from_slice(piece).unwrap();
}

/// The bytes from one place up to another.
fn part(bytes: &[u8], starts: usize, ends: usize) -> &[u8]
    requires { (starts ≤ ends) × (ends ≤ length bytes.now) }
    ensures { result.now ≡ take (ends - starts) (drop starts bytes.now) }
{
    &bytes[starts..ends]
}
