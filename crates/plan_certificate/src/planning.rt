ghost use Rattle.std.specs.Prelude.{◌≡◌, ℕ, ◌<◌, ◌≤◌, pos, ◌+ℤ◌, All, IfOk, length, slice_index, sum};
ghost use Rattle.helios_model.specs.Limits.{most_sites};
ghost use Rattle.helios_model.specs.Optimal.{IsCertificate, IsOptimal};
ghost use Rattle.helios_model.specs.Plans.{IsAccepted, IsPlan, count_of};
ghost use Rattle.latency_assign.specs.Assignment.{IsAssignment, IsInRange, potential};
ghost use Rattle.plan_certificate.specs.Judgement.{verdict_of};
ghost use Rattle.plan_certificate.specs.Planning.{AreSums, planned};

use crate::verdict::Verdict;
use helios_model::{
    Certificate, Matrix, Names, Plan, Times, certificates_show_optimal, each_search_finds_first,
    each_short_pair_is_found, pairings_are_orders, partners_add_up,
};
use latency_assign::assign;
use latency_assign::potentials::Potentials;
use std::alloc::{AllocError, Global};

fn sum_of(u: i64, v: i64) -> u64
    requires row { IsInRange u }
    requires column { IsInRange v }
    ensures { pos result ≡ (u +ℤ v) }
{
    (u + v) as u64
}

// The two potentials of each site, added up: its latency in half microseconds.
fn sums(alloc: Global, u: &[i64], v: &[i64]) -> Result<Times, AllocError>
    requires size { length u.now ≡ length v.now }
    requires rows { All IsInRange u.now }
    requires columns { All IsInRange v.now }
    ensures size { IfOk result (λ sums. length sums ≡ length u.now) }
    ensures sums { IfOk result (λ sums. (i : ℕ) → i < length u.now → pos (slice_index sums i) ≡ (potential u.now i +ℤ potential v.now i)) }
{
    let mut sums = Vec::with_capacity(alloc, u.len())?;
    for i in 0..u.len() {
        sums.push(sum_of(u[i], v[i]))?;
    }
    Ok(Times::new(sums))
}

#[tactic(auto, using(crate::proofs::Planned::are_sums))]
fn latencies(alloc: Global, m: &Matrix, potentials: &Potentials) -> Result<Times, AllocError>
    requires { IsAssignment m.now potentials.now }
    ensures { IfOk result (AreSums m.now potentials.now) }
{
    sums(alloc, potentials.u.items(), potentials.v.items())
}

fn plan_with(names: &Names, trips: &Times, latencies: Times) -> Result<Plan, AllocError>
    requires { IsPlan names.now trips.now latencies }
    ensures { IfOk result (λ plan. plan ≡ record { names = names.now; trips = trips.now; latencies = latencies }) }
{
    Ok(Plan::new(names.copy()?, trips.copy()?, latencies))
}

/// The plan of a matrix with the least average latency, and the pairing that proves it. Only want of memory is an error.
#[tactic(auto, using(crate::proofs::Planned::is_plan, crate::proofs::Planned::is_accepted, crate::proofs::Planned::is_certified, crate::proofs::Planned::is_optimal, crate::proofs::Planned::is_judged, crate::proofs::Planned::is_long, crate::proofs::Planned::are_sites))]
pub fn plan_of(alloc: Global, m: &Matrix) -> Result<(Plan, Certificate), AllocError>
    ensures names { IfOk result (λ made. made.0.names ≡ m.now.names) }
    ensures trips { IfOk result (λ made. made.0.trips ≡ m.now.trips) }
    ensures accepted { IfOk result (λ made. IsAccepted made.0) }
    ensures certified { IfOk result (λ made. IsCertificate made.0 made.1.pair) }
    ensures paired { IfOk result (λ made. length made.1.pair ≡ count_of made.0) }
    ensures sites { IfOk result (λ made. All (λ partner. partner < most_sites) made.1.pair) }
    ensures judged { IfOk result (λ made. verdict_of made.0 made.1.pair ≡ Verdict.Optimal (sum made.0.latencies)) }
    ensures optimal { IfOk result (λ made. IsOptimal made.0) }
{
    certificates_show_optimal();
    each_search_finds_first();
    each_short_pair_is_found();
    pairings_are_orders();
    partners_add_up();
    let names = m.names();
    let potentials = assign(alloc, m)?;
    let latencies = latencies(alloc, m, &potentials)?;
    let plan = plan_with(names, m.trips(), latencies)?;
    let Potentials { u: _, v: _, s } = potentials;
    Ok((plan, Certificate { pair: s }))
}
