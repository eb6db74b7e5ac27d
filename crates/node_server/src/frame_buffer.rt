//! The bytes of a connection that came and were not taken yet.
ghost use Rattle.std.specs.Prelude.{◌≡◌, ◌++◌, ◌<◌, ◌≤◌, [], true, IfOk, length, take, drop};
ghost use Rattle.node_server.specs.Arriving.{ComesTo, end_next};
ghost use Rattle.node_server.specs.Rooms.{Fills};

use crate::arrival::Arrival;
use crate::next::Next;
use crate::room::{make_room, read_behind};
use link_codec::{LinkFault, decode_frame, what_is_cut_is_short};
use outside_io::{Failed, Net};
use std::alloc::{AllocError, Global};
use std::marker::Model;

/// The bytes that are asked of a connection at once, unless a frame is longer.
const ROOM: usize = 65_536;

/// The bytes of a connection that came and are unread: one read may bring many frames, and a frame may come in many pieces.
#[derive(Drop)]
pub struct FrameBuffer {
    bytes: Vec<u8>,
    from: usize,
    to: usize,
}

impl Model for FrameBuffer {
    ghost use Rattle.std.specs.Prelude.{ℕ, ◌≤◌, List, drop, take, vec_len};

    ghost Value = { List ℕ };

    ghost view = { λ b. drop b.from (take b.to b.bytes.items) };

    ghost invariant = { λ b. (b.from ≤ b.to) × (b.to ≤ vec_len b.bytes) };
}

impl FrameBuffer {
    /// One in which nothing is unread.
    pub fn new(alloc: Global) -> Result<FrameBuffer, AllocError>
        ensures { IfOk result (λ buffer. buffer ≡ []) }
    {
        Ok(FrameBuffer {
            bytes: vec![in alloc; 0u8; ROOM]?,
            from: 0,
            to: 0,
        })
    }

    /// The bytes that are unread.
    pub fn unread(&self) -> &[u8]
        ensures { result.now ≡ self.now }
    {
        &self.bytes[self.from..self.to]
    }

    /// Takes so many bytes from the front of those that are unread.
    fn pass(&mut self, count: usize)
        requires { count ≤ length self.old }
        ensures { self.new ≡ drop count self.old }
    {
        self.from += count;
        if self.from == self.to {
            self.from = 0;
            self.to = 0;
        }
    }

    /// Reads once behind the bytes that are unread.
    fn fill<N: Net>(&mut self, alloc: Global, net: &mut N) -> Arrival
        requires stands { (N.seen net.old).stands ≡ true }
        requires few { length self.old < 1213481 }
        ensures { Fills self.old self.new (N.seen net.old) (N.seen net.new) result }
    {
        let Ok(from) = make_room(alloc, &mut self.bytes, self.from, self.to) else {
            return Arrival::NoMemory;
        };
        self.to = from + (self.to - self.from);
        self.from = from;
        match read_behind(net, &mut self.bytes, self.to) {
            Ok(0) => Arrival::End,
            Ok(count) => {
                self.to += count;
                Arrival::Bytes
            }
            Err(Failed) => Arrival::Failed,
        }
    }

    /// The next whole frame, or what stands in its place. Reads only where what is unread is less than a frame, and no more
    /// once the input has ended.
    #[tactic(auto, using(crate::proofs::Arrivals::reads_none, crate::proofs::Arrivals::reads_more, crate::proofs::Arrivals::longer, crate::proofs::Arrivals::frame_comes, crate::proofs::Arrivals::bad_comes, crate::proofs::Arrivals::no_memory_comes, crate::proofs::Arrivals::no_room_comes, crate::proofs::Arrivals::failed_answered, crate::proofs::Arrivals::end_answered))]
    pub fn next_frame<N: Net>(&mut self, alloc: Global, net: &mut N) -> Next
        requires stands { (N.seen net.old).stands ≡ true }
        ensures { ComesTo self.old self.new (N.seen net.old) (N.seen net.new) result }
    {
        what_is_cut_is_short();
        loop {
            match decode_frame(alloc, self.unread()) {
                Ok((frame, size)) => {
                    self.pass(size);
                    return Next::Frame(frame);
                }
                Err(LinkFault::Bad) => return Next::Bad,
                Err(LinkFault::NoMemory) => return Next::NoMemory,
                Err(LinkFault::Cut) => {}
            }
            match self.fill(alloc, net) {
                Arrival::Bytes => {}
                Arrival::End => return end_of(self.unread()),
                Arrival::Failed => return Next::Failed,
                Arrival::NoMemory => return Next::NoMemory,
            }
        }
    }
}

/// How an input ended that leaves these bytes.
fn end_of(unread: &[u8]) -> Next
    ensures { result ≡ end_next unread.now }
{
    if unread.is_empty() {
        Next::End
    } else {
        Next::CutOff
    }
}
