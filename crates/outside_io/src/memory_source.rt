ghost use Rattle.std.specs.Prelude.{◌≡◌, ◌<◌, ◌↔◌, ◌++◌, Some, length, min, take, drop, IsErr, IfOk, OnErr, MatchResult, Contains};
ghost use Rattle.std.specs.Io.{ReadsAtMost};
ghost use Rattle.std.specs.Io.KnownBytes.{ReadConsumes};
ghost use Rattle.outside_io.specs.Causes.{HasCause, IsCount, StaysTold, one_more};
ghost use Rattle.outside_io.specs.Memory.{next_call};

use crate::failing_calls::FailingCalls;
use crate::unread::UnreadBytes;
use crate::{Failed, Source};
use std::marker::Model;

/// A source over bytes in memory, which gives at most `piece` bytes per read and fails exactly at
/// the calls whose numbers, from 0, it was given.
#[derive(Drop)]
pub struct MemSource {
    unread: UnreadBytes,
    piece: usize,
    failing: FailingCalls,
}

impl Model for MemSource {
    ghost use Rattle.std.specs.Prelude.{◌<◌, ◌^◌};
    ghost use Rattle.outside_io.specs.Causes.{IsCount};
    ghost use Rattle.std.specs.Option.{unwrap_or};
    ghost use Rattle.outside_io.specs.Memory.{MemoryInput};

    ghost Value = { MemoryInput };

    ghost view = { λ s. record {
      left = s.unread;
      piece = s.piece;
      fails = s.failing.fails.items;
      calls = unwrap_or s.failing.next (2 ^ 64);
      faults = s.failing.faults;
    } };

    ghost invariant = { λ s. (0 < s.piece) × IsCount s.failing.faults };
}

impl MemSource {
    pub fn new(bytes: Vec<u8>, piece: usize, fails: Vec<u64>) -> MemSource
        requires { 0 < piece }
        ensures { result ≡ record {
          left = bytes.items;
          piece = piece;
          fails = fails.items;
          calls = 0;
          faults = 0;
        } }
    {
        MemSource {
            unread: UnreadBytes::new(bytes),
            piece,
            failing: FailingCalls::new(fails),
        }
    }

    /// The bytes that are still to come.
    pub fn left(&self) -> &[u8]
        ensures { result.now ≡ self.now.left }
    {
        self.unread.as_slice()
    }

    /// How many calls have failed.
    pub fn faults(&self) -> u64
        ensures { result ≡ self.now.faults }
    {
        self.failing.faults()
    }
}

impl Source for MemSource {
    ghost seen = { λ s. record { left = Some s.left; faults = s.faults } };

    fn read(&mut self, into: &mut [u8]) -> Result<usize, Failed>
        ensures fails { IsErr result ↔ Contains self.old.fails self.old.calls }
        ensures amount { IfOk result (λ n.
            n ≡ min self.old.piece (min (length into.old) (length self.old.left))) }
        ensures given { IfOk result (λ n. into.new ≡ take n self.old.left ++ drop n into.old) }
        ensures untouched { OnErr result (into.new ≡ into.old) }
        ensures after { MatchResult result
            (λ n. self.new ≡ record self.old {
              left = drop n self.old.left;
              calls = next_call self.old.calls;
            })
            (λ _. self.new ≡ record self.old {
              calls = next_call self.old.calls;
              faults = one_more self.old.faults;
            }) }

        ensures bound { ReadsAtMost result into.new }
        ensures bytes { ReadConsumes (Some self.old.left) (Some self.new.left) result into.new }
        ensures tells { StaysTold (Some self.old.left) (Some self.new.left) }
        ensures count { IsCount self.new.faults }
        ensures cause { HasCause self.old.faults self.new.faults result }
    {
        if self.failing.is_failing() {
            return Err(self.failing.count_fault());
        }
        Ok(self.unread.read(into, self.piece))
    }
}
