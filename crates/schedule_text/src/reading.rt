//! The schedule that a text says, or the first rule that the text breaks.
ghost use Rattle.std.specs.Prelude.{◌≡◌, ◌≤◌, All, IfOk, length};
ghost use Rattle.serde_json.specs.View.{items_view, view};
ghost use Rattle.commit_offsets.specs.Reading.{plan_at};
ghost use Rattle.helios_model.specs.Plans.{IsAccepted};
ghost use Rattle.json_text.specs.Reading.{Gives};
ghost use Rattle.schedule_text.specs.Reading.{accepted_at, plan_read, schedule_at, schedule_of_text, steps_of};
ghost use Rattle.schedule_text.specs.Steps.{IsStep, most_steps};

use crate::refusal::ScheduleRefusal;
use crate::step_reading::StepReader;
use crate::steps::{Schedule, StepList};
use commit_offsets::{PlanRefusal, plan_from_value};
use helios_model::{Plan, first_short};
use json_text::{array_member, read_list, value_of};
use serde_json::Value;
use std::alloc::Global;

/// The most steps of a schedule.
const MOST_STEPS: usize = 100_000;

fn plan(alloc: Global, value: &Value) -> Result<Plan, ScheduleRefusal>
    ensures { Gives ScheduleRefusal.NoMemory result (plan_read (plan_at (view value.now))) }
{
    match plan_from_value(alloc, value) {
        Ok((plan, _)) => Ok(plan),
        Err(PlanRefusal::NoMemory) => Err(ScheduleRefusal::NoMemory),
        Err(refusal) => Err(ScheduleRefusal::PlanRefused(refusal)),
    }
}

// The plan, where any two of its sites reach their round trip.
#[tactic(auto, unfolding(crate::specs::Reading::accepted_at))]
fn accepted(alloc: Global, value: &Value) -> Result<Plan, ScheduleRefusal>
    ensures exact { Gives ScheduleRefusal.NoMemory result (accepted_at (view value.now)) }
    ensures accepted { IfOk result IsAccepted }
{
    let plan = plan(alloc, value)?;
    match first_short(&plan) {
        None => Ok(plan),
        Some((i, j)) => Err(ScheduleRefusal::ShortPair(i, j)),
    }
}

#[tactic(auto, using(crate::proofs::SaidSteps::steps_counted, crate::proofs::SaidSteps::few_steps, crate::proofs::SaidSteps::each_step))]
fn steps(alloc: Global, plan: &Plan, items: &[Value]) -> Result<StepList, ScheduleRefusal>
    ensures exact { Gives ScheduleRefusal.NoMemory result (steps_of plan.now (items_view items.now)) }
    ensures few { IfOk result (λ steps. length steps ≤ most_steps) }
    ensures each { IfOk result (All (IsStep plan.now)) }
{
    let too_many = ScheduleRefusal::TooManySteps(items.len() as u64);
    let steps = read_list(alloc, items, MOST_STEPS, too_many, &StepReader { plan })?;
    Ok(StepList::new(steps))
}

#[tactic(auto, unfolding(crate::specs::Reading::schedule_at))]
fn schedule(alloc: Global, value: &Value) -> Result<Schedule, ScheduleRefusal>
    ensures exact { Gives ScheduleRefusal.NoMemory result (schedule_at (view value.now)) }
    ensures accepted { IfOk result (λ schedule. IsAccepted schedule.plan) }
    ensures few { IfOk result (λ schedule. length schedule.steps ≤ most_steps) }
    ensures each { IfOk result (λ schedule. All (IsStep schedule.plan) schedule.steps) }
{
    let given = value.get("plan").ok_or(ScheduleRefusal::BadShape)?;
    let items = array_member(value, "steps").ok_or(ScheduleRefusal::BadShape)?;
    let plan = accepted(alloc, given)?;
    let steps = steps(alloc, &plan, items.as_slice())?;
    Ok(Schedule { plan, steps })
}

/// The schedule that a text says, or the first rule that it breaks.
#[tactic(auto, unfolding(crate::specs::Reading::schedule_of_text))]
pub fn read_schedule(alloc: Global, input: &[u8]) -> Result<Schedule, ScheduleRefusal>
    ensures exact { Gives ScheduleRefusal.NoMemory result (schedule_of_text input.now) }
    ensures accepted { IfOk result (λ schedule. IsAccepted schedule.plan) }
    ensures few { IfOk result (λ schedule. length schedule.steps ≤ most_steps) }
    ensures each { IfOk result (λ schedule. All (IsStep schedule.plan) schedule.steps) }
{
    let value = value_of(alloc, input)?.ok_or(ScheduleRefusal::NotJson)?;
    schedule(alloc, &value)
}
