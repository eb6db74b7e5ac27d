ghost use Rattle.std.specs.Prelude.{◌≡◌, ◌*◌, IfOk, is_some, length, not, position};
ghost use Rattle.json_text.specs.Arrays.{row_of, whole_number};
ghost use Rattle.json_text.specs.Reading.{Gives};
ghost use Rattle.serde_json.specs.View.{items_view, view};
ghost use Rattle.rtt_matrix.specs.Reading.{good_rows, trips_of};

use crate::refusal::MatrixRefusal;
use helios_model::Times;
use json_text::{is_row, read_rows};
use serde_json::Value;
use std::alloc::Global;

// The place of the first value that is no row of as many whole numbers as there are names.
fn first_other(count: usize, rows: &[Value]) -> Option<usize>
    ensures { result ≡ position (λ v. not (is_some (row_of count whole_number (view v)))) rows.now }
{
    rows.iter().position(|row| !is_row::<u64>(count, row))
}

// How many such rows come first.
fn good_rows(count: usize, rows: &[Value]) -> usize
    ensures { result ≡ good_rows count (items_view rows.now) }
{
    first_other(count, rows).unwrap_or(rows.len())
}

/// The numbers of as many rows as there are names, row after row, or the first bad row.
#[tactic(auto, unfolding(crate::specs::Reading::trips_of))]
pub(crate) fn trips(alloc: Global, count: usize, rows: &[Value]) -> Result<Times, MatrixRefusal>
    ensures exact { Gives MatrixRefusal.NoMemory result (trips_of count (items_view rows.now)) }
    ensures size { IfOk result (λ trips. length trips ≡ count * count) }
{
    match read_rows(alloc, count, rows) {
        Ok(trips) => Ok(Times::new(trips)),
        Err(unread) => {
            let place = good_rows(count, rows).min(count);
            Err(unread.because(MatrixRefusal::BadRow(place as u64)))
        }
    }
}
