//! What a value says as a step of a schedule.
ghost use Rattle.std.specs.Prelude.{◌≡◌, Option, codes, option_map};
ghost use Rattle.std.specs.List.{list_any};
ghost use Rattle.serde_json.specs.Find.{get};
ghost use Rattle.serde_json.specs.View.{view};
ghost use Rattle.json_text.specs.Reading.{Gives, required};
ghost use Rattle.json_text.specs.Unread.{Reads};
ghost use Rattle.schedule_text.specs.Stepping.{batch_at, byte_of, call_of, is_both, keep_at, may_stop, restart_at, step_at, stop_at, stop_given};
ghost use Rattle.schedule_text.specs.Steps.{is_journaled};
ghost use Rattle.schedule_text.specs.declared.refusal.ScheduleRefusal.TheVariants.{BadStep};

use crate::input_reading::{inputs, site_member};
use crate::planned::{Planned, PlannedInputs};
use crate::refusal::ScheduleRefusal;
use crate::steps::Step;
use disk_store::{Keep, Stop};
use helios_model::Plan;
use json_text::{ItemReader, Unread, array_member, has_member, is_text, number_member};
use serde_json::Value;
use std::alloc::Global;

/// The last call of a site's disk at which a batch can stop.
const LAST_BATCH_CALL: u8 = 4;

/// The last call of a site's disk at which a restart can stop.
const LAST_RESTART_CALL: u8 = 8;

// ---- stops

fn byte_of(number: u64) -> Option<Keep>
    ensures { result ≡ byte_of number }
{
    if number <= 255 {
        Some(Keep::Byte(number as u8))
    } else {
        None
    }
}

#[tactic(auto, unfolding(crate::specs::Stepping::keep_at))]
fn keep(value: &Value) -> Option<Keep>
    ensures { result ≡ keep_at (view value.now) }
{
    if is_text(value, "all") {
        Some(Keep::All)
    } else if is_text(value, "nothing") {
        Some(Keep::Nothing)
    } else {
        byte_of(value.as_u64()?)
    }
}

fn call_of(last: u8, number: u64) -> Option<u8>
    ensures { result ≡ call_of last number }
{
    if number >= 1 && number <= u64::from(last) {
        Some(number as u8)
    } else {
        None
    }
}

#[tactic(auto, unfolding(crate::specs::Stepping::stop_at))]
fn stop(last: u8, value: &Value) -> Option<Stop>
    ensures { result ≡ stop_at last (view value.now) }
{
    let call = call_of(last, number_member(value, "call")?)?;
    let keep = keep(value.get("keep")?)?;
    Some(Stop { call, keep })
}

/// The stop of a step, where it gives one.
fn stop_given(last: u8, step: &Value) -> Result<Option<Stop>, Unread>
    ensures { Reads result (stop_given last (get (codes "stop") (view step.now))) }
{
    match step.get("stop") {
        None => Ok(None),
        Some(given) => {
            let stop = stop(last, given).ok_or(Unread::OtherForm)?;
            Ok(Some(stop))
        }
    }
}

fn is_any_journaled(inputs: &[Planned]) -> bool
    ensures { result ≡ list_any is_journaled inputs.now }
{
    inputs.iter().any(|input| input.is_journaled())
}

/// Whether a batch of these inputs may have this stop.
fn may_stop(inputs: &PlannedInputs, stop: Option<Stop>) -> bool
    ensures { result ≡ may_stop inputs.now stop }
{
    stop.is_none() || is_any_journaled(inputs.items())
}

// ---- steps

#[tactic(auto, unfolding(crate::specs::Stepping::batch_at))]
fn batch(alloc: Global, plan: &Plan, value: &Value) -> Result<Step, Unread>
    ensures { Reads result (batch_at plan.now (view value.now)) }
{
    let site = site_member(plan, value, "site").ok_or(Unread::OtherForm)?;
    let items = array_member(value, "inputs").ok_or(Unread::OtherForm)?;
    let inputs = inputs(alloc, plan, site, items.as_slice())?;
    let stop = stop_given(LAST_BATCH_CALL, value)?;
    if may_stop(&inputs, stop) {
        Ok(Step::Batch { site, inputs, stop })
    } else {
        Err(Unread::OtherForm)
    }
}

#[tactic(auto, unfolding(crate::specs::Stepping::restart_at))]
fn restart(plan: &Plan, value: &Value) -> Result<Step, Unread>
    ensures { Reads result (restart_at plan.now (view value.now)) }
{
    let site = site_member(plan, value, "restart").ok_or(Unread::OtherForm)?;
    let stop = stop_given(LAST_RESTART_CALL, value)?;
    Ok(Step::Restart { site, stop })
}

fn is_both(value: &Value) -> bool
    ensures { result ≡ is_both (view value.now) }
{
    has_member(value, "restart") && has_member(value, "site")
}

#[tactic(auto, unfolding(crate::specs::Stepping::step_at))]
fn step(alloc: Global, plan: &Plan, value: &Value) -> Result<Step, Unread>
    ensures { Reads result (step_at plan.now (view value.now)) }
{
    if is_both(value) {
        Err(Unread::OtherForm)
    } else if has_member(value, "restart") {
        restart(plan, value)
    } else {
        batch(alloc, plan, value)
    }
}

/// Reads a step of the plan, and names one that has no form of a step by its place.
#[derive(Drop)]
pub(crate) struct StepReader<'a> {
    pub plan: &'a Plan,
}

impl ItemReader for StepReader<'_> {
    type Item = Step;

    type Error = ScheduleRefusal;

    ghost said = { λ reader place d. required (BadStep place) (step_at reader.plan.now d) };

    fn read(&self, alloc: Global, place: usize, value: &Value) -> Result<Step, ScheduleRefusal> {
        step(alloc, self.plan, value).map_err(|unread| unread.because(ScheduleRefusal::BadStep(
            place as u64,
        )))
    }
}
