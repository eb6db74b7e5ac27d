//! Laws of the tests that a matrix passes.
ghost use Rattle.helios_model.specs.Passing.{EachMatrixPasses, EachSearchFindsFirst};

/// A search below a bound finds the first number that passes, and nothing where none does.
pub fn each_search_finds_first()
    ensures { EachSearchFindsFirst }
{}

/// No test of names or round trips finds a fault in a matrix.
pub fn each_matrix_passes()
    ensures { EachMatrixPasses }
{}
