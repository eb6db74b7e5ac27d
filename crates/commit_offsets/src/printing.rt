ghost use Rattle.std.specs.Prelude.{◌≡◌, ◌<◌, All, IfOk, length};
ghost use Rattle.helios_model.specs.Limits.{most_sites};
ghost use Rattle.helios_model.specs.Plans.{IsPlan, count_of};
ghost use Rattle.serde_json.specs.View.{view};
ghost use Rattle.commit_offsets.specs.Printing.{members_data, plan_data, plan_text, whole};
ghost use Rattle.commit_offsets.specs.Reading.{plan_of_text};

use crate::values::{Offsets, RoundTrips, names, numbers, sites, square};
use helios_model::{Bytes, Certificate, Plan, each_matrix_passes, each_search_finds_first};
use json_text::line_of;
use serde_json::{Value, json};
use std::alloc::{AllocError, Global};

#[tactic(auto, unfolding(crate::specs::Printing::members_data))]
fn members(
    alloc: Global,
    latency: Value,
    names: Value,
    offset: Value,
    pair: Value,
    rtt: Value,
    total: u64,
) -> Result<Value, AllocError>
    ensures { IfOk result (λ v. view v ≡ members_data (view latency) (view names) (view offset) (view pair) (view rtt) (whole total)) }
{
    json!(in alloc; {
        "latency": latency,
        "names": names,
        "offset": offset,
        "pair": pair,
        "rtt": rtt,
        "total": total,
        "version": 1
    })
}

fn plan_value(alloc: Global, plan: &Plan, certificate: &Certificate) -> Result<Value, AllocError>
    ensures value { IfOk result (λ v. view v ≡ plan_data plan.now certificate.now.pair) }
    ensures limits { IfOk result (λ _. IsPlan plan.now.names plan.now.trips plan.now.latencies) }
{
    let latency = numbers(alloc, plan.latencies().items())?;
    let names = names(alloc, plan.names().items())?;
    let offset = square::<Offsets>(alloc, plan)?;
    let pair = sites(alloc, certificate.pair.items())?;
    let rtt = square::<RoundTrips>(alloc, plan)?;
    let total = plan.total();
    members(alloc, latency, names, offset, pair, rtt, total)
}

/// The text of a plan and its certificate: JSON without blanks, the members in the order of their names, and a line
/// feed. A pairing of the plan's sites is read again as it was. Only want of memory is an error.
#[tactic(auto, using(crate::proofs::Printed::no_float, crate::proofs::Printed::shallow, crate::proofs::ReadAgain::text_read_again))]
pub fn print_plan(
    alloc: Global,
    plan: &Plan,
    certificate: &Certificate,
) -> Result<Bytes, AllocError>
    ensures text { IfOk result (λ text. text ≡ plan_text plan.now certificate.now.pair) }
    ensures reads_back { IfOk result (λ text. length certificate.now.pair ≡ count_of plan.now
        → All (λ partner. partner < most_sites) certificate.now.pair → plan_of_text text ≡ Ok (plan.now, certificate.now)) }
{
    each_matrix_passes();
    each_search_finds_first();
    let value = plan_value(alloc, plan, certificate)?;
    line_of(alloc, &value)
}
