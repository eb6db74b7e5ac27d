ghost use Rattle.std.specs.Prelude.{◌≡◌, ◌^◌, ◌↔◌, [], IsTrue, Contains};
ghost use Rattle.std.specs.Option.{unwrap_or};
ghost use Rattle.outside_io.specs.Causes.{IsCount, one_more};
ghost use Rattle.outside_io.specs.Memory.{next_call};

use crate::{Failed, FaultCount};

/// Which calls of an object in memory fail: those whose numbers, from 0, stand in a list. It counts
/// the calls and the faults.
#[derive(Drop)]
pub(crate) struct FailingCalls {
    fails: Vec<u64>,
    /// The number of the next call; none where 2^64 calls have come.
    next: Option<u64>,
    faults: FaultCount,
}

impl FailingCalls {
    pub(crate) fn new(fails: Vec<u64>) -> FailingCalls
        ensures fails { result.fails.items ≡ fails.items }
        ensures next { result.next ≡ Some 0 }
        ensures faults { result.faults ≡ 0 }
    {
        FailingCalls {
            fails,
            next: Some(0),
            faults: FaultCount::new(),
        }
    }

    /// Counts one call, and says whether its number stands in the list.
    pub(crate) fn is_failing(&mut self) -> bool
        ensures listed { IsTrue result ↔
            Contains self.old.fails.items (unwrap_or self.old.next (2 ^ 64)) }
        ensures next { unwrap_or self.new.next (2 ^ 64)
            ≡ next_call (unwrap_or self.old.next (2 ^ 64)) }
        ensures fails { self.new.fails.items ≡ self.old.fails.items }
        ensures faults { self.new.faults ≡ self.old.faults }
    {
        let listed = is_listed(&self.fails, self.next);
        self.next = number_after(self.next);
        listed
    }

    /// Counts one fault, and gives what the call answers.
    pub(crate) fn count_fault(&mut self) -> Failed
        ensures faults { self.new.faults ≡ one_more self.old.faults }
        ensures count { IsCount self.new.faults }
        ensures fails { self.new.fails.items ≡ self.old.fails.items }
        ensures next { self.new.next ≡ self.old.next }
    {
        self.faults.count_fault()
    }

    pub(crate) fn faults(&self) -> u64
        ensures { result ≡ self.now.faults }
    {
        self.faults.number()
    }
}

/// Whether this number stands in the list.
fn is_listed(fails: &[u64], number: Option<u64>) -> bool
    ensures { IsTrue result ↔ Contains fails.now (unwrap_or number (2 ^ 64)) }
{
    match number {
        Some(number) => fails.contains(&number),
        None => false,
    }
}

/// The number after this one; none after the last.
fn number_after(number: Option<u64>) -> Option<u64>
    ensures { unwrap_or result (2 ^ 64) ≡ next_call (unwrap_or number (2 ^ 64)) }
{
    match number {
        Some(number) => number.checked_add(1),
        None => None,
    }
}
