ghost use Rattle.std.specs.Prelude.{◌≡◌, ◌*◌, ◌<◌, ◌≤◌, ◌^◌, ◌==◌, All, IfOk, OnOk, length, nat_le, sum};
ghost use Rattle.std.specs.List.{list_all};
ghost use Rattle.helios_model.specs.Plans.{count_of};
ghost use Rattle.json_text.specs.Reading.{Gives, demand};
ghost use Rattle.serde_json.specs.View.{view};
ghost use Rattle.commit_offsets.specs.Reading.{HaveForms, accepted, limited, offset_refusal, other_offset, plan_at, plan_of_text};

use crate::data::PlanFields;
use crate::fields::plan_fields;
use crate::offsets::first_other;
use crate::refusal::{FieldName, PlanRefusal};
use helios_model::{Certificate, GREATEST_LATENCY, LONGEST_TRIP, MOST_SITES, Places, Plan};
use json_text::value_of;
use serde_json::Value;
use std::alloc::{AllocError, Global};

/// The greatest number of a site.
const LAST_SITE: u64 = MOST_SITES as u64 - 1;

fn all_at_most(numbers: &[u64], limit: u64) -> bool
    ensures { result ≡ list_all (λ n. nat_le n limit) numbers.now }
{
    numbers.iter().all(|n| *n <= limit)
}

// The numbers of a field, where none is over its limit.
#[tactic(auto, using(crate::proofs::Acceptance::all_within), unfolding(crate::specs::Reading::limited))]
fn within(name: FieldName, limit: u64, numbers: &[u64]) -> Result<(), PlanRefusal>
    ensures exact { Gives PlanRefusal.NoMemory result (limited name limit numbers.now) }
    ensures bounded { OnOk result (All (λ n. n ≤ limit) numbers.now) }
{
    if all_at_most(numbers, limit) {
        Ok(())
    } else {
        Err(PlanRefusal::Limit(name))
    }
}

fn places(alloc: Global, numbers: &[u64]) -> Result<Places, AllocError>
    requires { All (λ n. n ≤ LAST_SITE) numbers.now }
    ensures { IfOk result (λ places. places ≡ numbers.now) }
{
    let mut places = Vec::with_capacity(alloc, numbers.len())?;
    for number in numbers {
        places.push(*number as u8)?;
    }
    Ok(Places::new(places))
}

// Whether the offsets are the plan's.
fn same_offsets(plan: &Plan, offsets: &[i64]) -> Result<(), PlanRefusal>
    requires { length offsets.now ≡ count_of plan.now * count_of plan.now }
    ensures { Gives PlanRefusal.NoMemory result (offset_refusal (count_of plan.now) (other_offset plan.now offsets.now)) }
{
    let count = u64::from(plan.count());
    match first_other(plan, offsets) {
        None => Ok(()),
        Some(place) => Err(PlanRefusal::OffsetDiffers(place as u64 / count, place as u64 % count)),
    }
}

// Whether the total is the sum of the latencies.
fn same_total(plan: &Plan, given: u64) -> Result<(), PlanRefusal>
    ensures { Gives PlanRefusal.NoMemory result
        (demand (PlanRefusal.TotalDiffers given (sum plan.now.latencies)) (given == sum plan.now.latencies)) }
{
    let sum = plan.total();
    if given == sum {
        Ok(())
    } else {
        Err(PlanRefusal::TotalDiffers { given, sum })
    }
}

// The plan and the certificate of fields whose numbers agree.
#[tactic(auto, using(crate::proofs::Acceptance::plan_of_forms), unfolding(crate::specs::Reading::accepted))]
fn accepted(alloc: Global, fields: PlanFields) -> Result<(Plan, Certificate), PlanRefusal>
    requires { HaveForms fields }
    ensures exact { Gives PlanRefusal.NoMemory result (accepted fields) }
    ensures pair { IfOk result (λ read. length read.1.pair ≡ count_of read.0) }
{
    let PlanFields {
        names,
        trips,
        latencies,
        offsets,
        pair,
        total,
    } = fields;
    within(FieldName::Rtt, LONGEST_TRIP, trips.items())?;
    within(FieldName::Latency, GREATEST_LATENCY, latencies.items())?;
    within(FieldName::Pair, LAST_SITE, pair.items())?;
    let plan = Plan::new(names, trips, latencies);
    same_offsets(&plan, offsets.items())?;
    same_total(&plan, total)?;
    let pair = places(alloc, pair.items())?;
    Ok((plan, Certificate { pair }))
}

/// The plan and the certificate that a JSON value says, or the first rule that it breaks.
#[tactic(auto, unfolding(crate::specs::Reading::plan_at))]
pub fn plan_from_value(alloc: Global, value: &Value) -> Result<(Plan, Certificate), PlanRefusal>
    ensures exact { Gives PlanRefusal.NoMemory result (plan_at (view value.now)) }
    ensures pair { IfOk result (λ read. length read.1.pair ≡ count_of read.0) }
{
    let fields = plan_fields(alloc, value)?;
    accepted(alloc, fields)
}

/// The plan and the certificate that a text says, or the first rule that it breaks.
#[tactic(auto, unfolding(crate::specs::Reading::plan_of_text))]
pub fn read_plan(alloc: Global, input: &[u8]) -> Result<(Plan, Certificate), PlanRefusal>
    ensures exact { Gives PlanRefusal.NoMemory result (plan_of_text input.now) }
    ensures pair { IfOk result (λ read. length read.1.pair ≡ count_of read.0) }
{
    let value = value_of(alloc, input)?.ok_or(PlanRefusal::NotJson)?;
    plan_from_value(alloc, &value)
}
