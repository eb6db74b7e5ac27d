ghost use Rattle.std.specs.Prelude.{◌≡◌};
ghost use Rattle.outside_io.specs.Causes.{IsCount, one_more};

use crate::Failed;
use std::marker::Model;

/// How many calls on an object have failed; it stands still at 2^64 - 1.
#[derive(Drop)]
pub struct FaultCount {
    number: u64,
}

impl Model for FaultCount {
    ghost use Rattle.std.specs.Prelude.{ℕ};
    ghost use Rattle.outside_io.specs.Causes.{IsCount};

    ghost Value = { ℕ };

    ghost view = { λ f. f.number };

    ghost invariant = { λ f. IsCount f.number };
}

impl FaultCount {
    pub fn new() -> FaultCount
        ensures { result ≡ 0 }
    {
        FaultCount { number: 0 }
    }

    /// Counts a call that failed, and gives what that call answers.
    pub fn count_fault(&mut self) -> Failed
        ensures next { self.new ≡ one_more self.old }
        ensures count { IsCount self.new }
    {
        self.number = self.number.saturating_add(1);
        Failed
    }

    pub fn number(&self) -> u64
        ensures number { result ≡ self.now }
        ensures count { IsCount self.now }
    {
        self.number
    }
}
