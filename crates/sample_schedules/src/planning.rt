//! The plan of sites in a line.
ghost use Rattle.std.specs.Prelude.{◌≡◌, ◌*◌, ◌≤◌, ◌<◌, IfOk, map};
ghost use Rattle.std.specs.List.{range_with_len};
ghost use Rattle.helios_model.specs.Plans.{IsAccepted};
ghost use Rattle.sample_schedules.specs.Generator.{line_plan, site_name, trip_in};

use helios_model::{Name, Names, Plan, Times};
use std::alloc::{AllocError, Global};

fn names(alloc: Global, sites: u8) -> Result<Names, AllocError>
    ensures { IfOk result (λ names. names ≡ map site_name (range_with_len 0 sites)) }
{
    let mut names = Vec::with_capacity(alloc, sites as usize)?;
    for i in 0..sites {
        names.push(Name::new(format!(in alloc; "s{i}")?))?;
    }
    Ok(Names::new(names))
}

/// The round trip at a place of the square, in microseconds.
fn trip_in(sites: usize, place: usize) -> u64
    requires some { 1 ≤ sites }
    requires near { place < 1024 }
    ensures { result ≡ trip_in sites place }
{
    let apart = (place / sites).abs_diff(place % sites);
    1000 * apart as u64
}

/// The round trips, row after row.
#[tactic(auto, using(crate::proofs::Lines::square_fits))]
fn trips(alloc: Global, sites: usize) -> Result<Times, AllocError>
    requires some { 1 ≤ sites }
    requires few { sites ≤ 32 }
    ensures { IfOk result (λ trips. trips ≡ map (trip_in sites) (range_with_len 0 (sites * sites))) }
{
    let mut trips = Vec::with_capacity(alloc, sites * sites)?;
    for place in 0..sites * sites {
        trips.push(trip_in(sites, place))?;
    }
    Ok(Times::new(trips))
}

/// The plan of so many sites in a line, a millisecond from each to the next and back.
#[tactic(auto, unfolding(crate::specs::Generator::line_plan), using(crate::proofs::Lines::accepted))]
pub(crate) fn line_plan(alloc: Global, sites: u8) -> Result<Plan, AllocError>
    requires some { 2 ≤ sites }
    requires few { sites ≤ 32 }
    ensures exact { IfOk result (λ plan. plan ≡ line_plan sites) }
    ensures accepted { IfOk result IsAccepted }
{
    let latency = 1000 * (u64::from(sites) - 1);
    let latencies = Times::new(vec![in alloc; latency; sites as usize]?);
    Ok(Plan::new(
        names(alloc, sites)?,
        trips(alloc, sites as usize)?,
        latencies,
    ))
}
