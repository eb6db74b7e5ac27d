ghost use Rattle.std.specs.Prelude.{◌≡◌, ℕ, ◌<◌, ◌≤◌, ◌++◌, List, Some, None, Ok, length, min, take, drop, IfOk};
ghost use Rattle.std.specs.Io.{ReadsAtMost};
ghost use Rattle.std.specs.Io.KnownBytes.{ReadConsumes, WriteAppends};
ghost use Rattle.outside_io.specs.Causes.{HasCause, IsCount, StaysTold};

use crate::unread::UnreadBytes;
use crate::{Failed, Sink, Source};
use std::marker::Model;

/// A source over bytes in memory that gives as many as the buffer has room for, and never fails.
#[derive(Drop)]
pub struct QuietSource {
    unread: UnreadBytes,
}

impl Model for QuietSource {
    ghost use Rattle.std.specs.Prelude.{ℕ, List};

    ghost Value = { List ℕ };

    ghost view = { λ s. s.unread };
}

impl QuietSource {
    pub fn new(bytes: Vec<u8>) -> QuietSource
        ensures { result ≡ bytes.items }
    {
        QuietSource {
            unread: UnreadBytes::new(bytes),
        }
    }

    /// The bytes that are still to come.
    pub fn left(&self) -> &[u8]
        ensures { result.now ≡ self.now }
    {
        self.unread.as_slice()
    }
}

impl Source for QuietSource {
    ghost seen = { λ s. record { left = Some s; faults = 0 } };

    fn read(&mut self, into: &mut [u8]) -> Result<usize, Failed>
        ensures amount { result ≡ Ok (min (length into.old) (length self.old)) }
        ensures given { IfOk result (λ n. into.new ≡ take n self.old ++ drop n into.old) }
        ensures after { IfOk result (λ n. self.new ≡ drop n self.old) }

        ensures bound { ReadsAtMost result into.new }
        ensures bytes { ReadConsumes (Some self.old) (Some self.new) result into.new }
        ensures tells { StaysTold (Some self.old) (Some self.new) }
        ensures count { IsCount 0 }
        ensures cause { HasCause 0 0 result }
    {
        let most = into.len();
        Ok(self.unread.read(into, most))
    }
}

/// A sink that takes all that it is given, keeps nothing and tells nothing, and never fails.
#[derive(Drop)]
pub struct NullSink;

impl NullSink {
    pub fn new() -> NullSink
        ensures { result ≡ record {} }
    {
        NullSink
    }
}

impl Sink for NullSink {
    ghost seen = { λ _. record { taken = None; faults = 0 } };

    fn write(&mut self, from: &[u8]) -> Result<usize, Failed>
        ensures amount { result ≡ Ok (length from.now) }

        ensures bound { IfOk result (λ n. n ≤ length from.now) }
        ensures progress { IfOk result (λ n. 0 < length from.now → 0 < n) }
        ensures bytes { WriteAppends None None result from.now }
        ensures tells { StaysTold {T = List ℕ} None None }
        ensures count { IsCount 0 }
        ensures cause { HasCause 0 0 result }
    {
        Ok(from.len())
    }
}
