//! Weights of the sites, and units that flow between them.
ghost use Rattle.std.specs.Prelude.{◌≡◌, ◌↔◌, ℕ, List, IsTrue, IsSome, IfSome};
ghost use Rattle.weighted_plan.specs.Flows.{AreUnits};
ghost use Rattle.weighted_plan.specs.Weighted.{AreWeights};

use helios_model::MOST_SITES;
use std::marker::Model;

/// The greatest weight of a site, and the most units that flow from a site to a site.
const GREATEST_WEIGHT: u64 = 1000;

fn are_weights(list: &[u64]) -> bool
    ensures { IsTrue result ↔ AreWeights list.now }
{
    list.len() >= 1
        && list.len() <= MOST_SITES as usize
        && list
            .iter()
            .all(|weight| *weight >= 1 && *weight <= GREATEST_WEIGHT)
}

fn are_units(list: &[u64]) -> bool
    ensures { IsTrue result ↔ AreUnits list.now }
{
    list.iter().all(|units| *units <= GREATEST_WEIGHT)
}

/// The weight of each site: 1 to 32 numbers from 1 to 1000.
#[derive(Debug, Drop)]
pub struct Weights {
    items: Vec<u64>,
}

impl Model for Weights {
    ghost Value = { List ℕ };

    ghost view = { λ w. w.items.items };

    ghost invariant = { λ w. AreWeights w.items.items };
}

impl Weights {
    /// The weights of this list; None where it hasn't 1 to 32 numbers from 1 to 1000.
    pub fn new(list: Vec<u64>) -> Option<Weights>
        ensures valid { IsSome result ↔ AreWeights list.items }
        ensures value { IfSome result (λ w. w ≡ list.items) }
    {
        if are_weights(&list) {
            Some(Weights { items: list })
        } else {
            None
        }
    }

    pub fn items(&self) -> &[u64]
        ensures value { result.now ≡ self.now }
        ensures limits { AreWeights self.now }
    {
        self.items.as_slice()
    }
}

/// How many units flow from each site to each site, row after row: no number over 1000.
#[derive(Debug, Drop)]
pub struct Flow {
    items: Vec<u64>,
}

impl Model for Flow {
    ghost Value = { List ℕ };

    ghost view = { λ f. f.items.items };

    ghost invariant = { λ f. AreUnits f.items.items };
}

impl Flow {
    /// The flow of this list; None where a number is over 1000.
    pub fn new(list: Vec<u64>) -> Option<Flow>
        ensures valid { IsSome result ↔ AreUnits list.items }
        ensures value { IfSome result (λ f. f ≡ list.items) }
    {
        if are_units(&list) {
            Some(Flow { items: list })
        } else {
            None
        }
    }

    /// The flow of this list, which the caller knows to have no number over 1000.
    pub(crate) fn of(list: Vec<u64>) -> Flow
        requires { AreUnits list.items }
        ensures { result ≡ list.items }
    {
        Flow { items: list }
    }

    pub fn items(&self) -> &[u64]
        ensures value { result.now ≡ self.now }
        ensures limits { AreUnits self.now }
    {
        self.items.as_slice()
    }
}
