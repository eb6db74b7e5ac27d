ghost use Rattle.std.specs.Prelude.{◌≡◌, ℕ, ◌+◌, ◌*◌, ◌<◌, ◌≤◌, IfNone, IfOk, IfSome, length, slice_index, sum};
ghost use Rattle.helios_model.specs.Limits.{longest_trip};
ghost use Rattle.helios_model.specs.Plans.{IsAccepted, IsPlan, count_of as sites_of};
ghost use Rattle.weighted_plan.specs.Flows.{IsFlowCertificate};
ghost use Rattle.weighted_plan.specs.Transport.{IsTransported};
ghost use Rattle.weighted_plan.specs.Trips.{count_of, distance};
ghost use Rattle.weighted_plan.specs.Verdict.{verdict_of};
ghost use Rattle.weighted_plan.specs.Weighted.{AreWeights, IsWeightedOptimal, weighted_sum};

use crate::growing::grow;
use crate::laws::flows_show_optimal;
use crate::planting::plant;
use crate::pushing::push;
use crate::verdict::WeightedVerdict;
use crate::weights::{Flow, Weights};
use helios_model::{
    LONGEST_TRIP, Matrix, Names, Plan, Times, each_search_finds_first, each_short_pair_is_found,
};
use std::alloc::{AllocError, Global};

// The place of the first number that isn't 0.
#[tactic(auto, using(crate::proofs::Begun::no_items))]
fn first_left(numbers: &[u64]) -> Option<usize>
    ensures within { IfSome result (λ i. i < length numbers.now) }
    ensures some { IfSome result (λ i. 1 ≤ slice_index numbers.now i) }
    ensures none { IfNone result (sum numbers.now ≡ 0) }
{
    for place in 0..numbers.len() {
        if numbers[place] >= 1 {
            return Some(place);
        }
    }
    None
}

// A row that has still something to send, and a column that has still something to take.
fn next_ends(supply: &[u64], demand: &[u64]) -> Option<(usize, usize)>
    requires even { sum supply.now ≡ sum demand.now }
    ensures row { IfSome result (λ ends. ends.0 < length supply.now) }
    ensures column { IfSome result (λ ends. ends.1 < length demand.now) }
    ensures sends { IfSome result (λ ends. 1 ≤ slice_index supply.now ends.0) }
    ensures takes { IfSome result (λ ends. 1 ≤ slice_index demand.now ends.1) }
    ensures none { IfNone result (sum supply.now ≡ 0) }
{
    let row = first_left(supply)?;
    let column = first_left(demand)?;
    Some((row, column))
}

// Potentials of rows and of columns, and a flow where they are tight, by which each row sends and each column takes as
// many units as its site's weight.
fn transported(
    alloc: Global,
    m: &Matrix,
    weights: &[u64],
) -> Result<(Vec<u64>, Vec<u64>, Vec<u64>), AllocError>
    requires sites { length weights.now ≡ count_of m.now }
    requires weights { AreWeights weights.now }
    ensures { IfOk result (λ found. IsTransported (count_of m.now) (distance m.now) weights.now found.0.items found.1.items found.2.items) }
{
    let count = m.count() as usize;
    let mut u = vec![in alloc; LONGEST_TRIP; count]?;
    let mut v = vec![in alloc; 0u64; count]?;
    let mut flow = vec![in alloc; 0u64; count * count]?;
    let mut supply = Vec::from_slice(alloc, weights)?;
    let mut demand = Vec::from_slice(alloc, weights)?;
    while let Some((row, column)) = next_ends(&supply, &demand) {
        let mut tree = plant(alloc, count, row, supply[row])?;
        let end = grow(m, &mut u, &mut v, &flow, &demand, column, &mut tree);
        push(count, &mut flow, &mut supply, &mut demand, &tree, end);
    }
    Ok((u, v, flow))
}

// The two potentials of each site, added up: its latency in half microseconds.
fn latencies(alloc: Global, u: &[u64], v: &[u64]) -> Result<Times, AllocError>
    requires size { length u.now ≡ length v.now }
    requires rows { (i : ℕ) → i < length u.now → slice_index u.now i ≤ longest_trip }
    requires columns { (i : ℕ) → i < length v.now → slice_index v.now i ≤ longest_trip }
    ensures size { IfOk result (λ sums. length sums ≡ length u.now) }
    ensures sums { IfOk result (λ sums. (i : ℕ) → i < length u.now → slice_index sums i ≡ slice_index u.now i + slice_index v.now i) }
{
    let mut sums = Vec::with_capacity(alloc, u.len())?;
    for i in 0..u.len() {
        sums.push(u[i] + v[i])?;
    }
    Ok(Times::new(sums))
}

fn plan_with(names: &Names, trips: &Times, latencies: Times) -> Result<Plan, AllocError>
    requires { IsPlan names.now trips.now latencies }
    ensures { IfOk result (λ plan. plan ≡ record { names = names.now; trips = trips.now; latencies = latencies }) }
{
    Ok(Plan::new(names.copy()?, trips.copy()?, latencies))
}

// The plan of the potentials, and the flow that is tight with them.
#[tactic(auto, using(crate::proofs::Outcomes::is_plan, crate::proofs::Outcomes::is_accepted, crate::proofs::Outcomes::is_certified, crate::proofs::Outcomes::is_optimal, crate::proofs::Outcomes::is_judged, crate::proofs::Outcomes::are_units))]
fn weighed(alloc: Global, m: &Matrix, w: &Weights) -> Result<(Plan, Flow), AllocError>
    requires { length w.now ≡ count_of m.now }
    ensures names { IfOk result (λ made. made.0.names ≡ m.now.names) }
    ensures trips { IfOk result (λ made. made.0.trips ≡ m.now.trips) }
    ensures accepted { IfOk result (λ made. IsAccepted made.0) }
    ensures certified { IfOk result (λ made. IsFlowCertificate made.0 w.now made.1) }
    ensures judged { IfOk result (λ made. verdict_of made.0 w.now made.1 ≡ WeightedVerdict.Optimal (weighted_sum w.now made.0.latencies)) }
    ensures optimal { IfOk result (λ made. IsWeightedOptimal made.0 w.now) }
{
    flows_show_optimal();
    each_search_finds_first();
    each_short_pair_is_found();
    let names = m.names();
    let (u, v, flow) = transported(alloc, m, w.items())?;
    let latencies = latencies(alloc, &u, &v)?;
    let plan = plan_with(names, m.trips(), latencies)?;
    Ok((plan, Flow::of(flow)))
}

/// The plan of a matrix with the least weighted sum of latencies, and the flow that shows it. Only want of memory is an error.
pub fn weigh(alloc: Global, m: &Matrix, w: &Weights) -> Result<(Plan, Flow), AllocError>
    requires { length w.now ≡ count_of m.now }
    ensures names { IfOk result (λ made. made.0.names ≡ m.now.names) }
    ensures trips { IfOk result (λ made. made.0.trips ≡ m.now.trips) }
    ensures accepted { IfOk result (λ made. IsAccepted made.0) }
    ensures certified { IfOk result (λ made. IsFlowCertificate made.0 w.now made.1) }
    ensures judged { IfOk result (λ made. verdict_of made.0 w.now made.1 ≡ WeightedVerdict.Optimal (weighted_sum w.now made.0.latencies)) }
    ensures optimal { IfOk result (λ made. IsWeightedOptimal made.0 w.now) }
{
    weighed(alloc, m, w)
}
