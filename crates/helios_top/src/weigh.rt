ghost use Rattle.std.specs.Prelude.{◌≡◌, IfOk, length};
ghost use Rattle.helios_top.specs.Answers.{EndsOver};
ghost use Rattle.helios_top.specs.Runs.Weigh.{EndsOverMatrix, IsWeighed};
ghost use Rattle.helios_top.specs.declared.words.Command.TheVariants.{Weigh};

use crate::{Ending, Refusal};
use helios_model::Matrix;
use rtt_matrix::{MatrixRefusal, read_matrix};
use std::alloc::{AllocError, Global};
use weighted_plan::{Weights, WeightsRefusal, print_weighted, read_weights, weigh};

/// The text of a plan with the least weighted sum of latencies, of the matrix and the weights that the text has.
pub(crate) fn answer(alloc: Global, text: &[u8]) -> Result<Ending, AllocError>
    ensures { IfOk result (EndsOver Weigh text.now) }
{
    match read_matrix(alloc, text) {
        Ok(matrix) => answer_matrix(alloc, text, &matrix),
        Err(MatrixRefusal::NoMemory) => Err(AllocError),
        Err(refusal) => Ok(Ending::Refused(Refusal::OfMatrix(refusal))),
    }
}

fn answer_matrix(alloc: Global, text: &[u8], matrix: &Matrix) -> Result<Ending, AllocError>
    ensures { IfOk result (EndsOverMatrix text.now matrix.now) }
{
    match read_weights(alloc, text, matrix.count()) {
        Ok(weights) => weighed(alloc, matrix, &weights),
        Err(WeightsRefusal::NoMemory) => Err(AllocError),
        Err(refusal) => Ok(Ending::Refused(Refusal::OfWeights(refusal))),
    }
}

fn weighed(alloc: Global, matrix: &Matrix, weights: &Weights) -> Result<Ending, AllocError>
    requires { length weights.now ≡ length matrix.now.names }
    ensures { IfOk result (IsWeighed matrix.now weights.now) }
{
    let (plan, flow) = weigh(alloc, matrix, weights)?;
    let text = print_weighted(alloc, &plan, weights, &flow)?;
    Ok(Ending::Printed(text))
}
