ghost use Rattle.std.specs.Prelude.{◌≡◌, ◌<◌, ◌≤◌, ◌↔◌, ◌⊎◌, ◌-◌, ◌++◌, [], Some, length, min, take, IsErr, IfOk, MatchResult, Contains};
ghost use Rattle.std.specs.Io.KnownBytes.{WriteAppends};
ghost use Rattle.outside_io.specs.Causes.{HasCause, IsCount, StaysTold, one_more};
ghost use Rattle.outside_io.specs.Memory.{next_call};

use crate::failing_calls::FailingCalls;
use crate::{Failed, Sink};
use std::alloc::{AllocError, Global};
use std::marker::Model;

/// A sink into memory, which takes at most `piece` bytes per write, and has room for so many
/// bytes. It fails exactly at the calls whose numbers, from 0, it was given, and where no room is
/// left for a piece that is not empty.
#[derive(Drop)]
pub struct MemSink {
    bytes: Vec<u8>,
    room: usize,
    piece: usize,
    failing: FailingCalls,
}

impl Model for MemSink {
    ghost use Rattle.std.specs.Prelude.{◌<◌, ◌≤◌, ◌+◌, ◌^◌, vec_len, vec_capacity};
    ghost use Rattle.std.specs.Option.{unwrap_or};
    ghost use Rattle.outside_io.specs.Causes.{IsCount};
    ghost use Rattle.outside_io.specs.Memory.{MemoryOutput};

    ghost Value = { MemoryOutput };

    ghost view = { λ s. record {
      taken = s.bytes.items;
      room = s.room;
      piece = s.piece;
      fails = s.failing.fails.items;
      calls = unwrap_or s.failing.next (2 ^ 64);
      faults = s.failing.faults;
    } };

    ghost invariant = { λ s. (vec_len s.bytes + s.room ≤ vec_capacity s.bytes) × (0 < s.piece) ×
        IsCount s.failing.faults };
}

impl MemSink {
    /// Takes the memory for all that the sink has room for.
    pub fn new(
        alloc: Global,
        room: usize,
        piece: usize,
        fails: Vec<u64>,
    ) -> Result<MemSink, AllocError>
        requires { 0 < piece }
        ensures { IfOk result (λ sink. sink ≡ record {
          taken = [];
          room = room;
          piece = piece;
          fails = fails.items;
          calls = 0;
          faults = 0;
        }) }
    {
        Ok(MemSink {
            bytes: Vec::with_capacity(alloc, room)?,
            room,
            piece,
            failing: FailingCalls::new(fails),
        })
    }

    /// All bytes that were taken so far.
    pub fn taken(&self) -> &[u8]
        ensures { result.now ≡ self.now.taken }
    {
        &self.bytes
    }

    /// How many calls have failed.
    pub fn faults(&self) -> u64
        ensures { result ≡ self.now.faults }
    {
        self.failing.faults()
    }
}

impl Sink for MemSink {
    ghost seen = { λ s. record { taken = Some s.taken; faults = s.faults } };

    fn write(&mut self, from: &[u8]) -> Result<usize, Failed>
        ensures fails { IsErr result ↔
            (Contains self.old.fails self.old.calls ⊎ ((0 < length from.now) × (self.old.room ≡ 0))) }
        ensures amount { IfOk result (λ n.
            n ≡ min self.old.piece (min (length from.now) self.old.room)) }
        ensures after { MatchResult result
            (λ n. self.new ≡ record self.old {
              taken = self.old.taken ++ take n from.now;
              room = self.old.room - n;
              calls = next_call self.old.calls;
            })
            (λ _. self.new ≡ record self.old {
              calls = next_call self.old.calls;
              faults = one_more self.old.faults;
            }) }

        ensures bound { IfOk result (λ n. n ≤ length from.now) }
        ensures progress { IfOk result (λ n. 0 < length from.now → 0 < n) }
        ensures bytes { WriteAppends (Some self.old.taken) (Some self.new.taken) result from.now }
        ensures tells { StaysTold (Some self.old.taken) (Some self.new.taken) }
        ensures count { IsCount self.new.faults }
        ensures cause { HasCause self.old.faults self.new.faults result }
    {
        if self.failing.is_failing() {
            return Err(self.failing.count_fault());
        }
        if self.room == 0 && !from.is_empty() {
            return Err(self.failing.count_fault());
        }
        let count = self.piece.min(from.len().min(self.room));
        self.bytes.extend_from_slice(&from[..count]).unwrap();
        self.room -= count;
        Ok(count)
    }
}
