// The unfinished transactions of one site: their times by the numbers of their arrival, and the numbers by
// their times.
ghost use Rattle.std.specs.Prelude.{◌≡◌, ℕ, [], ◌∷◌, ◌++◌, None, nat_eq, not, length, filter, map, OnOk, OnErr};
ghost use Rattle.std.specs.Option.{option_map};
ghost use Rattle.prepare_pools.specs.Line.{AllBelow, arrival_of};

use std::alloc::{AllocError, Global};
use std::collections::BTreeMap;
use std::marker::Model;

#[derive(Drop)]
pub(crate) struct Arrived {
    times: BTreeMap<u64, u64>,
    arrivals: BTreeMap<u64, u64>,
}

impl Model for Arrived {
    ghost use Rattle.std.specs.Prelude.{List, ℕ};
    ghost use Rattle.prepare_pools.specs.Line.{IsArrived};

    ghost Value = { List (ℕ × ℕ) };

    ghost view = { λ s. s.times.entries };

    ghost invariant = { λ s. IsArrived s.times.entries s.arrivals.entries };
}

impl Arrived {
    pub(crate) fn new(alloc: Global) -> Arrived
        ensures { result ≡ [] }
    {
        Arrived {
            times: BTreeMap::new(alloc),
            arrivals: BTreeMap::new(alloc),
        }
    }

    // The number of the transaction with this time.
    pub(crate) fn arrival(&self, time: u64) -> Option<u64>
        ensures { result ≡ arrival_of (λ t. nat_eq t time) self.now }
    {
        self.arrivals.get(&time).copied()
    }

    // The times by their numbers.
    pub(crate) fn times(&self) -> &BTreeMap<u64, u64>
        ensures { result.now.entries ≡ self.now }
    {
        &self.times
    }

    // Takes the transaction with this time in behind the others.
    pub(crate) fn enter(&mut self, arrival: u64, time: u64) -> Result<(), AllocError>
        requires last { AllBelow arrival self.old }
        requires absent { arrival_of (λ t. nat_eq t time) self.old ≡ None }
        ensures entered { OnOk result (self.new ≡ self.old ++ (arrival, time) ∷ []) }
        ensures as_before { OnErr result (self.new ≡ self.old) }
    {
        self.arrivals.insert(time, arrival)?;
        match self.times.insert(arrival, time) {
            Ok(_) => Ok(()),
            Err(refused) => {
                let _ = self.arrivals.remove(&time);
                Err(refused.into())
            }
        }
    }

    // Takes the transaction with this time out.
    pub(crate) fn leave(&mut self, time: u64) -> Option<u64>
        ensures arrival { result ≡ arrival_of (λ t. nat_eq t time) self.old }
        ensures left { self.new ≡ filter (λ e. not (nat_eq e.1 time)) self.old }
    {
        match self.arrivals.remove(&time) {
            Some(arrival) => {
                let _ = self.times.remove(&arrival);
                Some(arrival)
            }
            None => None,
        }
    }
}
