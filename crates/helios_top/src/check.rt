ghost use Rattle.std.specs.Prelude.{IfOk};
ghost use Rattle.helios_top.specs.Answers.{EndsOver};
ghost use Rattle.helios_top.specs.declared.words.Command.TheVariants.{Check};

use crate::{Ending, Refusal};
use commit_offsets::{PlanRefusal, read_plan};
use plan_certificate::check;
use std::alloc::{AllocError, Global};

/// The verdict on the plan that the text is.
pub(crate) fn answer(alloc: Global, text: &[u8]) -> Result<Ending, AllocError>
    ensures { IfOk result (EndsOver Check text.now) }
{
    match read_plan(alloc, text) {
        Ok((plan, certificate)) => Ok(Ending::Judged(check(&plan, &certificate))),
        Err(PlanRefusal::NoMemory) => Err(AllocError),
        Err(refusal) => Ok(Ending::Refused(Refusal::OfPlan(refusal))),
    }
}
