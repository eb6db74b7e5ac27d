//! The schedule of a number.
ghost use Rattle.std.specs.Prelude.{◌≡◌, ◌≤◌, [], All, IfOk, length};
ghost use Rattle.helios_model.specs.Plans.{IsAccepted};
ghost use Rattle.sample_schedules.specs.Generator.{sample_schedule};
ghost use Rattle.sample_schedules.specs.Pushes.{PushWhatWasPulled};
ghost use Rattle.schedule_text.specs.Steps.{IsStep, most_steps};

use crate::generator::Generator;
use crate::planning::line_plan;
use schedule_text::{Schedule, StepList};
use std::alloc::{AllocError, Global};

/// The schedule of a number: so many steps at 2 to 32 sites in a line, each drawn from the number and what was drawn before it.
pub fn make_schedule(
    alloc: Global,
    number: u64,
    sites: u8,
    steps: u64,
) -> Result<Schedule, AllocError>
    requires some { 2 ≤ sites }
    requires few { sites ≤ 32 }
    requires short { steps ≤ most_steps }
    ensures exact { IfOk result (λ schedule. schedule ≡ sample_schedule number sites steps) }
    ensures accepted { IfOk result (λ schedule. IsAccepted schedule.plan) }
    ensures count { IfOk result (λ schedule. length schedule.steps ≡ steps) }
    ensures each { IfOk result (λ schedule. All (IsStep schedule.plan) schedule.steps) }
    ensures pushes { IfOk result (λ schedule. PushWhatWasPulled [] schedule.steps) }
{
    let plan = line_plan(alloc, sites)?;
    let mut generator = Generator::new(alloc, number, sites);
    let mut made = Vec::with_capacity(alloc, steps as usize)?;
    for i in 0..steps {
        made.push(generator.step(alloc, i)?)?;
    }
    let steps = StepList::new(made);
    Ok(Schedule { plan, steps })
}
