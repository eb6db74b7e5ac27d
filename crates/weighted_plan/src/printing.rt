ghost use Rattle.std.specs.Prelude.{◌≡◌, ◌*◌, IfOk, Some, length};
ghost use Rattle.helios_model.specs.Plans.{count_of};
ghost use Rattle.json_text.specs.Text.{json_of};
ghost use Rattle.serde_json.specs.View.{view};
ghost use Rattle.weighted_plan.specs.Printing.{members_data, weighted_data, weighted_data_with, weighted_text, whole};

use crate::sums::weighted_sum;
use crate::values::{names, numbers, square};
use crate::weights::{Flow, Weights};
use helios_model::{Bytes, Plan};
use json_text::line_of;
use serde_json::{Value, json};
use std::alloc::{AllocError, Global};

#[tactic(auto, unfolding(crate::specs::Printing::members_data))]
fn members(
    alloc: Global,
    flow: Value,
    latency: Value,
    names: Value,
    rtt: Value,
    total: u64,
    weights: Value,
) -> Result<Value, AllocError>
    ensures { IfOk result (λ v. view v ≡ members_data (view flow) (view latency) (view names) (view rtt) (whole total) (view weights)) }
{
    json!(in alloc; {
        "flow": flow,
        "latency": latency,
        "names": names,
        "rtt": rtt,
        "total": total,
        "weights": weights
    })
}

fn weighted_value(
    alloc: Global,
    plan: &Plan,
    weights: &Weights,
    flow: &Flow,
    total: u64,
) -> Result<Value, AllocError>
    requires { length flow.now ≡ count_of plan.now * count_of plan.now }
    ensures { IfOk result (λ v. view v ≡ weighted_data_with plan.now weights.now flow.now total) }
{
    let count = plan.count();
    let cells = square(alloc, count, flow.items())?;
    let latency = numbers(alloc, plan.latencies().items())?;
    let names = names(alloc, plan.names().items())?;
    let rtt = square(alloc, count, plan.trips().items())?;
    let weights = numbers(alloc, weights.items())?;
    members(alloc, cells, latency, names, rtt, total, weights)
}

/// The text of a plan, its weights and a flow: JSON without blanks, the members in the order of their names, and a line
/// feed. Its total is the weighted sum of the latencies. Only want of memory is an error.
#[tactic(auto, using(crate::proofs::Printed::no_float, crate::proofs::Printed::shallow))]
pub fn print_weighted(
    alloc: Global,
    plan: &Plan,
    weights: &Weights,
    flow: &Flow,
) -> Result<Bytes, AllocError>
    requires weights { length weights.now ≡ count_of plan.now }
    requires cells { length flow.now ≡ count_of plan.now * count_of plan.now }
    ensures text { IfOk result (λ text. text ≡ weighted_text plan.now weights.now flow.now) }
    ensures reads_back { IfOk result (λ text. json_of text ≡ Some (weighted_data plan.now weights.now flow.now)) }
{
    let total = weighted_sum(plan, weights.items());
    let value = weighted_value(alloc, plan, weights, flow, total)?;
    line_of(alloc, &value)
}
