ghost use Rattle.std.specs.Prelude.{IfOk};
ghost use Rattle.helios_top.specs.Answers.{EndsOver};
ghost use Rattle.helios_top.specs.Runs.Plan.{IsPlanned};
ghost use Rattle.helios_top.specs.declared.words.Command.TheVariants.{Plan as PlanCommand};

use crate::{Ending, Refusal};
use commit_offsets::print_plan;
use helios_model::Matrix;
use plan_certificate::plan_of;
use rtt_matrix::{MatrixRefusal, read_matrix};
use std::alloc::{AllocError, Global};

/// The text of an optimal plan of the matrix that the text is.
pub(crate) fn answer(alloc: Global, text: &[u8]) -> Result<Ending, AllocError>
    ensures { IfOk result (EndsOver PlanCommand text.now) }
{
    match read_matrix(alloc, text) {
        Ok(matrix) => planned(alloc, &matrix),
        Err(MatrixRefusal::NoMemory) => Err(AllocError),
        Err(refusal) => Ok(Ending::Refused(Refusal::OfMatrix(refusal))),
    }
}

fn planned(alloc: Global, matrix: &Matrix) -> Result<Ending, AllocError>
    ensures { IfOk result (IsPlanned matrix.now) }
{
    let (plan, certificate) = plan_of(alloc, matrix)?;
    let text = print_plan(alloc, &plan, &certificate)?;
    Ok(Ending::Printed(text))
}
