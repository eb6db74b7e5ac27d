ghost use Rattle.std.specs.Prelude.{◌≡◌, ℕ, ◌<◌, ◌≤◌, List, None, length, IfOk, IfSome, MatchResult};
ghost use Rattle.std.specs.Io.{ReadsAtMost};
ghost use Rattle.std.specs.Io.KnownBytes.{ReadConsumes, WriteAppends};
ghost use Rattle.outside_io.specs.Causes.{HasCause, IsCount, StaysTold, one_more};

use crate::{Failed, FaultCount, Sink, Source};
use std::io::{ErrorKind, Read};
use std::marker::Model;

/// The standard input. It does not tell what is still to come; it counts the reads that failed.
#[derive(Drop)]
pub struct StdSource<'a, R: Input> {
    rt: &'a R,
    reader: R::Reader,
    faults: FaultCount,
}

impl<'a, R: Input> Model for StdSource<'a, R> {
    ghost use Rattle.std.specs.Prelude.{ℕ};
    ghost use Rattle.outside_io.specs.Causes.{IsCount};

    ghost Value = { ℕ };

    ghost view = { λ s. s.faults };

    ghost invariant = { λ s. IsCount s.faults };
}

impl<'a, R: Input> StdSource<'a, R> {
    /// The standard input of this runtime, with no fault counted yet.
    pub fn over(rt: &'a R) -> StdSource<'a, R>
        ensures { result ≡ 0 }
    {
        StdSource {
            rt,
            reader: rt.reader(),
            faults: FaultCount::new(),
        }
    }
}

impl<'a, R: Input> Source for StdSource<'a, R> {
    ghost seen = { λ s. record { left = None; faults = s } };

    fn read(&mut self, into: &mut [u8]) -> Result<usize, Failed>
        ensures after { MatchResult result
            (λ _. self.new ≡ self.old)
            (λ _. self.new ≡ one_more self.old) }

        ensures bound { ReadsAtMost result into.new }
        ensures bytes { ReadConsumes None None result into.new }
        ensures tells { StaysTold {T = List ℕ} None None }
        ensures count { IsCount self.new }
        ensures cause { HasCause self.old self.new result }
    {
        match read_once(&mut self.reader, into) {
            Some(count) => Ok(count),
            None => Err(self.faults.count_fault()),
        }
    }
}

/// Reads, and again where a signal came between; `None` where the read failed.
pub(crate) fn read_once<R: Read>(reader: &mut R, into: &mut [u8]) -> Option<usize>
    ensures { IfSome result (λ n. n ≤ length into.new) }
{
    for _ in 0..u64::MAX {
        match reader.read(into) {
            Ok(count) => return Some(count),
            Err(error) if error.kind() == ErrorKind::Interrupted => {}
            Err(_) => return None,
        }
    }
    None
}

/// The standard output. It does not tell what it has taken; it counts the writes that failed.
#[derive(Drop)]
pub struct StdSink<'a, R: Print> {
    rt: &'a R,
    faults: FaultCount,
}

impl<'a, R: Print> Model for StdSink<'a, R> {
    ghost use Rattle.std.specs.Prelude.{ℕ};
    ghost use Rattle.outside_io.specs.Causes.{IsCount};

    ghost Value = { ℕ };

    ghost view = { λ s. s.faults };

    ghost invariant = { λ s. IsCount s.faults };
}

impl<'a, R: Print> StdSink<'a, R> {
    /// The standard output of this runtime, with no fault counted yet.
    pub fn over(rt: &'a R) -> StdSink<'a, R>
        ensures { result ≡ 0 }
    {
        StdSink {
            rt,
            faults: FaultCount::new(),
        }
    }
}

impl<'a, R: Print> Sink for StdSink<'a, R> {
    ghost seen = { λ s. record { taken = None; faults = s } };

    fn write(&mut self, from: &[u8]) -> Result<usize, Failed>
        ensures after { MatchResult result
            (λ _. self.new ≡ self.old)
            (λ _. self.new ≡ one_more self.old) }

        ensures bound { IfOk result (λ n. n ≤ length from.now) }
        ensures progress { IfOk result (λ n. 0 < length from.now → 0 < n) }
        ensures bytes { WriteAppends None None result from.now }
        ensures tells { StaysTold {T = List ℕ} None None }
        ensures count { IsCount self.new }
        ensures cause { HasCause self.old self.new result }
    {
        match write_once(self.rt, from) {
            Some(count) if count > 0 || from.is_empty() => Ok(count),
            _ => Err(self.faults.count_fault()),
        }
    }
}

/// Writes, and again where a signal came between; `None` where the write failed.
fn write_once<R: Print>(rt: &R, from: &[u8]) -> Option<usize>
    ensures { IfSome result (λ n. n ≤ length from.now) }
{
    for _ in 0..u64::MAX {
        match rt.write_some(from) {
            Ok(count) => return Some(count),
            Err(error) if error.kind() == ErrorKind::Interrupted => {}
            Err(_) => return None,
        }
    }
    None
}
