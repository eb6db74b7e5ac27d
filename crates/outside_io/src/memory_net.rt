ghost use Rattle.std.specs.Prelude.{◌≡◌, ◌≢◌, ◌<◌, ◌≤◌, ◌↔◌, ◌⊎◌, ◌-◌, ◌++◌, [], Some, true, false, length, map, min, take, drop, vec_items, slice_index_or, IsErr, IfOk, MatchResult, OnErr, Contains};
ghost use Rattle.std.specs.Io.{ReadsAtMost};
ghost use Rattle.outside_io.specs.Causes.{HasCause, one_more};
ghost use Rattle.outside_io.specs.Memory.{next_call};
ghost use Rattle.outside_io.specs.MemoryNet.{MemoryNet, lent_talk, memory_seen};
ghost use Rattle.outside_io.specs.Net.{AreCounts, IsAddress, Talks, is_end, listened_at, most_address_bytes, talked, took};
ghost use Rattle.outside_io.specs.Seen.{Talk};

use crate::address::Address;
use crate::failing_calls::FailingCalls;
use crate::peers::Peers;
use crate::{Connection, Failed, FaultCount, Net};
use std::alloc::{AllocError, Global};
use std::marker::Model;

/// A net in memory. Each accept or dial takes the connection of the next peer, who sends one of the lists that it was given;
/// with no list left it fails. A read gives, and a write takes, at most `piece` bytes; over all connections it has room for so
/// many bytes that are written, and a write fails where none is left for a piece that is not empty. Beside that it fails exactly
/// at the calls whose numbers, from 0 and over listen, accept, dial, read and write together, it was given.
#[derive(Drop)]
pub struct MemNet {
    listens: bool,
    stands: bool,
    place: Address,
    listened: u64,
    peers: Peers,
    piece: usize,
    /// It counts the faults of listen, accept and dial too.
    failing: FailingCalls,
    line_faults: FaultCount,
}

impl Model for MemNet {
    ghost use Rattle.std.specs.Prelude.{◌≡◌, ◌<◌, ◌^◌, true, length};
    ghost use Rattle.std.specs.Option.{unwrap_or};
    ghost use Rattle.outside_io.specs.Causes.{IsCount};
    ghost use Rattle.outside_io.specs.MemoryNet.{MemoryNet};

    ghost Value = { MemoryNet };

    ghost view = { λ n. record {
      listens = n.listens;
      stands = n.stands;
      told = record { place = n.place; listened = n.listened; waiting = n.peers.waiting; left = n.peers.left; talks = n.peers.talks };
      room = n.peers.room;
      piece = n.piece;
      fails = n.failing.fails.items;
      calls = unwrap_or n.failing.next (2 ^ 64);
      call_faults = n.failing.faults;
      line_faults = n.line_faults;
    } };

    ghost invariant = { λ n. (0 < n.piece) × (n.stands ≡ true → 0 < length n.peers.talks)
        × IsCount n.failing.faults × IsCount n.line_faults };
}

impl MemNet {
    /// A net that does not listen and has no connection. It takes the memory for all that may be written.
    pub fn new(
        alloc: Global,
        waiting: Vec<Vec<u8>>,
        room: usize,
        piece: usize,
        fails: Vec<u64>,
    ) -> Result<MemNet, AllocError>
        requires { 0 < piece }
        ensures { IfOk result (λ net. net ≡ record {
          listens = false;
          stands = false;
          told = record { place = []; listened = 0; waiting = map vec_items waiting.items; left = []; talks = [] };
          room = room;
          piece = piece;
          fails = fails.items;
          calls = 0;
          call_faults = 0;
          line_faults = 0;
        }) }
    {
        Ok(MemNet {
            listens: false,
            stands: false,
            place: Address::of(""),
            listened: 0,
            peers: Peers::new(alloc, waiting, room)?,
            piece,
            failing: FailingCalls::new(fails),
            line_faults: FaultCount::new(),
        })
    }

    /// The address of the last listen that answered Ok; empty before the first.
    pub fn place(&self) -> &[u8]
        ensures { result.now ≡ self.now.told.place }
    {
        self.place.as_slice()
    }

    /// How many listens have answered Ok.
    pub fn listened(&self) -> u64
        ensures { result ≡ self.now.told.listened }
    {
        self.listened
    }

    /// How many connections were taken.
    pub fn taken(&self) -> usize
        ensures { result ≡ length self.now.told.talks }
    {
        self.peers.taken()
    }

    /// What was said on a connection that was taken; they are numbered from 0.
    pub fn connection(&self, number: usize) -> Connection<'_>
        requires { number < length self.now.told.talks }
        ensures { (d : Talk) → lent_talk result ≡ slice_index_or self.now.told.talks number d }
    {
        self.peers.connection(number)
    }

    /// How many calls of listen, accept and dial have failed.
    pub fn call_faults(&self) -> u64
        ensures { result ≡ self.now.call_faults }
    {
        self.failing.faults()
    }

    /// How many reads and writes have failed.
    pub fn line_faults(&self) -> u64
        ensures { result ≡ self.now.line_faults }
    {
        self.line_faults.number()
    }

    /// Takes the connection of the next peer.
    fn take_next(&mut self, dialled: &str) -> Result<(), Failed>
        requires { length dialled.now ≤ most_address_bytes }
        ensures fails { IsErr result ↔ (Contains self.old.fails self.old.calls ⊎ (self.old.told.waiting ≡ [])) }
        ensures after { MatchResult result
            (λ _. self.new ≡ record self.old {
              stands = true;
              told = took dialled.now self.old.told;
              calls = next_call self.old.calls;
            })
            (λ _. self.new ≡ record self.old {
              stands = false;
              calls = next_call self.old.calls;
              call_faults = one_more self.old.call_faults;
            }) }
        ensures counts { AreCounts (memory_seen self.new) }
        ensures cause { HasCause self.old.call_faults self.new.call_faults result }
    {
        self.stands = false;
        if self.failing.is_failing() {
            return Err(self.failing.count_fault());
        }
        if !self.peers.take_next(dialled) {
            return Err(self.failing.count_fault());
        }
        self.stands = true;
        Ok(())
    }
}

impl Net for MemNet {
    ghost seen = { memory_seen };

    fn listen(&mut self, address: &str) -> Result<(), Failed>
        requires { IsAddress address.now }
        ensures fails { IsErr result ↔ Contains self.old.fails self.old.calls }
        ensures after { MatchResult result
            (λ _. self.new ≡ record self.old {
              listens = true;
              told = listened_at address.now self.old.told;
              calls = next_call self.old.calls;
            })
            (λ _. self.new ≡ record self.old {
              calls = next_call self.old.calls;
              call_faults = one_more self.old.call_faults;
            }) }
        ensures counts { AreCounts (memory_seen self.new) }
        ensures cause { HasCause self.old.call_faults self.new.call_faults result }
    {
        if self.failing.is_failing() {
            return Err(self.failing.count_fault());
        }
        self.listens = true;
        self.place = Address::of(address);
        self.listened = self.listened.saturating_add(1);
        Ok(())
    }

    fn accept(&mut self) -> Result<(), Failed>
        requires { self.old.listens ≡ true }
        ensures fails { IsErr result ↔ (Contains self.old.fails self.old.calls ⊎ (self.old.told.waiting ≡ [])) }
        ensures after { MatchResult result
            (λ _. self.new ≡ record self.old {
              stands = true;
              told = took [] self.old.told;
              calls = next_call self.old.calls;
            })
            (λ _. self.new ≡ record self.old {
              stands = false;
              calls = next_call self.old.calls;
              call_faults = one_more self.old.call_faults;
            }) }
        ensures counts { AreCounts (memory_seen self.new) }
        ensures cause { HasCause self.old.call_faults self.new.call_faults result }
    {
        self.take_next("")
    }

    fn dial(&mut self, address: &str) -> Result<(), Failed>
        requires { IsAddress address.now }
        ensures fails { IsErr result ↔ (Contains self.old.fails self.old.calls ⊎ (self.old.told.waiting ≡ [])) }
        ensures after { MatchResult result
            (λ _. self.new ≡ record self.old {
              stands = true;
              told = took address.now self.old.told;
              calls = next_call self.old.calls;
            })
            (λ _. self.new ≡ record self.old {
              stands = false;
              calls = next_call self.old.calls;
              call_faults = one_more self.old.call_faults;
            }) }
        ensures counts { AreCounts (memory_seen self.new) }
        ensures cause { HasCause self.old.call_faults self.new.call_faults result }
    {
        self.take_next(address)
    }

    fn read(&mut self, into: &mut [u8]) -> Result<usize, Failed>
        requires { self.old.stands ≡ true }
        ensures fails { IsErr result ↔ Contains self.old.fails self.old.calls }
        ensures amount { IfOk result (λ n.
            n ≡ min self.old.piece (min (length into.old) (length self.old.told.left))) }
        ensures given { IfOk result (λ n. into.new ≡ take n self.old.told.left ++ drop n into.old) }
        ensures untouched { OnErr result (into.new ≡ into.old) }
        ensures after { MatchResult result
            (λ n. self.new ≡ record self.old {
              told = talked [] (take n self.old.told.left) (is_end n into.new) self.old.told;
              calls = next_call self.old.calls;
            })
            (λ _. self.new ≡ record self.old {
              calls = next_call self.old.calls;
              line_faults = one_more self.old.line_faults;
            }) }

        ensures bound { ReadsAtMost result into.new }
        ensures got { IfOk result (λ n. Talks (memory_seen self.old) (memory_seen self.new) [] (take n into.new) (is_end n into.new)) }
        ensures failed { OnErr result (Talks (memory_seen self.old) (memory_seen self.new) [] [] false) }
        ensures counts { AreCounts (memory_seen self.new) }
        ensures cause { HasCause self.old.line_faults self.new.line_faults result }
    {
        if self.failing.is_failing() {
            return Err(self.line_faults.count_fault());
        }
        Ok(self.peers.read(into, self.piece))
    }

    fn write(&mut self, from: &[u8]) -> Result<usize, Failed>
        requires { self.old.stands ≡ true }
        ensures fails { IsErr result ↔
            (Contains self.old.fails self.old.calls ⊎ ((0 < length from.now) × (self.old.room ≡ 0))) }
        ensures amount { IfOk result (λ n.
            n ≡ min self.old.piece (min (length from.now) self.old.room)) }
        ensures after { MatchResult result
            (λ n. self.new ≡ record self.old {
              told = talked (take n from.now) [] false self.old.told;
              room = self.old.room - n;
              calls = next_call self.old.calls;
            })
            (λ _. self.new ≡ record self.old {
              calls = next_call self.old.calls;
              line_faults = one_more self.old.line_faults;
            }) }

        ensures bound { IfOk result (λ n. n ≤ length from.now) }
        ensures progress { IfOk result (λ n. 0 < length from.now → 0 < n) }
        ensures sent { IfOk result (λ n. Talks (memory_seen self.old) (memory_seen self.new) (take n from.now) [] false) }
        ensures failed { OnErr result (Talks (memory_seen self.old) (memory_seen self.new) [] [] false) }
        ensures counts { AreCounts (memory_seen self.new) }
        ensures cause { HasCause self.old.line_faults self.new.line_faults result }
    {
        if self.failing.is_failing() {
            return Err(self.line_faults.count_fault());
        }
        let room = self.peers.room();
        if room == 0 && !from.is_empty() {
            return Err(self.line_faults.count_fault());
        }
        let count = self.piece.min(from.len().min(room));
        self.peers.write(&from[..count]);
        Ok(count)
    }

    fn hang_up(&mut self)
        ensures { self.new ≡ record self.old { stands = false } }
    {
        self.stands = false;
    }
}
