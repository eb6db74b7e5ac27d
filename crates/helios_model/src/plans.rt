//! Names of sites, matrices of round trips, and plans with their certificates.
ghost use Rattle.std.specs.Prelude.{◌≡◌, ℕ, List, IfOk, string_bytes, ◌<◌, ◌≤◌, ◌*◌, [], length, slice_index_or, sum, ◌^◌};
ghost use Rattle.helios_model.specs.Limits.{longest_trip, greatest_latency};
ghost use Rattle.helios_model.specs.Grid.{at};
ghost use Rattle.helios_model.specs.Plans.{IsMatrix, IsPlan, count_of, rtt, latency};

use crate::ids::SiteId;
use crate::numbers::{Places, Times};
use std::alloc::AllocError;
use std::marker::Model;

/// The name of a site.
#[derive(Clone, Debug, Drop)]
pub struct Name {
    text: String,
}

impl Model for Name {
    ghost Value = { List ℕ };

    ghost view = { λ n. string_bytes n.text };
}

impl Name {
    pub fn new(text: String) -> Name
        ensures { result ≡ string_bytes text }
    {
        Name { text }
    }

    pub fn text(&self) -> &str
        ensures { result.now ≡ self.now }
    {
        self.text.as_str()
    }

    pub fn copy(&self) -> Result<Name, AllocError>
        ensures { IfOk result (λ copied. copied ≡ self.now) }
    {
        self.clone()
    }
}

/// The names of the sites, in the order of their numbers.
#[derive(Clone, Debug, Drop)]
pub struct Names {
    items: Vec<Name>,
}

impl Model for Names {
    ghost Value = { List (List ℕ) };

    ghost view = { λ n. n.items.items };
}

impl Names {
    pub fn new(items: Vec<Name>) -> Names
        ensures { result ≡ items.items }
    {
        Names { items }
    }

    pub fn items(&self) -> &[Name]
        ensures { result.now ≡ self.now }
    {
        self.items.as_slice()
    }

    pub fn into_items(self) -> Vec<Name>
        ensures { result.items ≡ self }
    {
        self.items
    }

    pub fn copy(&self) -> Result<Names, AllocError>
        ensures { IfOk result (λ copied. copied ≡ self.now) }
    {
        self.clone()
    }
}

/// The sites of a cluster and the round trips between them, in microseconds: 1 to 32 distinct names, symmetric, 0 on
/// the diagonal, none over 1,000,000,000.
#[derive(Clone, Debug, Drop)]
pub struct Matrix {
    names: Names,
    rtt: Times,
}

impl Model for Matrix {
    ghost use Rattle.helios_model.specs.Plans.{MatrixData, IsMatrix};

    ghost Value = { MatrixData };

    ghost view = { λ m. record { names = m.names; trips = m.rtt } };

    ghost invariant = { λ m. IsMatrix m.names m.rtt };
}

impl Matrix {
    /// The matrix of these names and round trips, row after row.
    pub fn new(names: Names, rtt: Times) -> Matrix
        requires { IsMatrix names rtt }
        ensures { result ≡ record { names = names; trips = rtt } }
    {
        Matrix { names, rtt }
    }

    pub fn count(&self) -> u8
        ensures value { result ≡ length self.now.names }
        ensures limits { IsMatrix self.now.names self.now.trips }
    {
        self.names.items().len() as u8
    }

    pub fn name(&self, i: SiteId) -> &str
        requires { i < length self.now.names }
        ensures { result.now ≡ slice_index_or self.now.names i [] }
    {
        self.names.items()[i.number() as usize].text()
    }

    /// The site at a place of the names.
    pub fn site(&self, place: usize) -> SiteId
        requires { place < length self.now.names }
        ensures { result ≡ place }
    {
        prove!(place < self.names.items().len());
        SiteId::of(place as u8)
    }

    /// The round trip between two sites, in microseconds.
    #[tactic(auto, using(crate::proofs::PlanLimits::short_at))]
    pub fn rtt(&self, i: SiteId, j: SiteId) -> u64
        requires row { i < length self.now.names }
        requires column { j < length self.now.names }
        ensures value { result ≡ at (length self.now.names) self.now.trips i j }
        ensures bounded { result ≤ longest_trip }
    {
        let count = self.names.items().len();
        self.rtt.items()[i.number() as usize * count + j.number() as usize]
    }

    pub fn names(&self) -> &Names
        ensures value { result.now ≡ self.now.names }
        ensures limits { IsMatrix self.now.names self.now.trips }
    {
        &self.names
    }

    /// The round trips, row after row, in microseconds.
    pub fn trips(&self) -> &Times
        ensures { result.now ≡ self.now.trips }
    {
        &self.rtt
    }
}

fn sum_of(numbers: &[u64]) -> u64
    requires { sum numbers.now < 2 ^ 64 }
    ensures { result ≡ sum numbers.now }
{
    numbers.iter().sum()
}

/// A matrix with the commit latency of each site, in half microseconds, none over 2,000,000,000.
#[derive(Clone, Debug, Drop)]
pub struct Plan {
    names: Names,
    rtt: Times,
    latency: Times,
}

impl Model for Plan {
    ghost use Rattle.helios_model.specs.Plans.{PlanData, IsPlan};

    ghost Value = { PlanData };

    ghost view = { λ p. record { names = p.names; trips = p.rtt; latencies = p.latency } };

    ghost invariant = { λ p. IsPlan p.names p.rtt p.latency };
}

impl Plan {
    /// The plan of these names, round trips (row after row) and latencies.
    pub fn new(names: Names, rtt: Times, latency: Times) -> Plan
        requires { IsPlan names rtt latency }
        ensures { result ≡ record { names = names; trips = rtt; latencies = latency } }
    {
        Plan {
            names,
            rtt,
            latency,
        }
    }

    pub fn count(&self) -> u8
        ensures value { result ≡ count_of self.now }
        ensures limits { IsPlan self.now.names self.now.trips self.now.latencies }
    {
        self.names.items().len() as u8
    }

    pub fn name(&self, i: SiteId) -> &str
        requires { i < count_of self.now }
        ensures { result.now ≡ slice_index_or self.now.names i [] }
    {
        self.names.items()[i.number() as usize].text()
    }

    /// The site at a place of the names.
    pub fn site(&self, place: usize) -> SiteId
        requires { place < count_of self.now }
        ensures { result ≡ place }
    {
        prove!(place < self.names.items().len());
        SiteId::of(place as u8)
    }

    /// The round trip between two sites, in microseconds.
    #[tactic(auto, using(crate::proofs::PlanLimits::trip_bounded))]
    pub fn rtt(&self, i: SiteId, j: SiteId) -> u64
        requires row { i < count_of self.now }
        requires column { j < count_of self.now }
        ensures value { result ≡ rtt self.now i j }
        ensures bounded { result ≤ longest_trip }
    {
        let count = self.names.items().len();
        self.rtt.items()[i.number() as usize * count + j.number() as usize]
    }

    /// The commit latency of a site, in half microseconds.
    #[tactic(auto, using(crate::proofs::PlanLimits::latency_bounded))]
    pub fn latency(&self, i: SiteId) -> u64
        requires { i < count_of self.now }
        ensures value { result ≡ latency self.now i }
        ensures bounded { result ≤ greatest_latency }
    {
        self.latency.items()[i.number() as usize]
    }

    /// The commit latencies added up, in half microseconds.
    pub fn total(&self) -> u64
        ensures { result ≡ sum self.now.latencies }
    {
        sum_of(self.latency.items())
    }

    pub fn names(&self) -> &Names
        ensures value { result.now ≡ self.now.names }
        ensures limits { IsPlan self.now.names self.now.trips self.now.latencies }
    {
        &self.names
    }

    /// The round trips, row after row, in microseconds.
    pub fn trips(&self) -> &Times
        ensures { result.now ≡ self.now.trips }
    {
        &self.rtt
    }

    /// The commit latencies, in half microseconds.
    pub fn latencies(&self) -> &Times
        ensures { result.now ≡ self.now.latencies }
    {
        &self.latency
    }

    pub fn copy(&self) -> Result<Plan, AllocError>
        ensures { IfOk result (λ copied. copied ≡ self.now) }
    {
        self.clone()
    }
}

/// A pairing of the sites that shows a plan to be optimal: the number of each site's partner.
#[derive(Clone, Debug, Drop)]
pub struct Certificate {
    pub pair: Places,
}
