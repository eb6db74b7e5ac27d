ghost use Rattle.std.specs.Prelude.{◌≡◌, ◌+◌, ◌*◌, ◌<◌, ◌≤◌, length};
ghost use Rattle.helios_model.specs.Grid.{at};
ghost use Rattle.helios_model.specs.Limits.{most_sites};

/// The place of a row and a column in a square of so many rows.
#[tactic(auto, using(crate::proofs::Places::cell_within))]
pub(crate) fn cell(count: usize, row: usize, column: usize) -> usize
    requires few { count ≤ most_sites }
    requires row { row < count }
    requires column { column < count }
    ensures value { result ≡ row * count + column }
    ensures within { result < count * count }
{
    row * count + column
}

/// The number in a row and a column.
pub(crate) fn number(count: usize, square: &[u64], row: usize, column: usize) -> u64
    requires few { count ≤ most_sites }
    requires cells { length square.now ≡ count * count }
    requires row { row < count }
    requires column { column < count }
    ensures { result ≡ at count square.now row column }
{
    square[cell(count, row, column)]
}
