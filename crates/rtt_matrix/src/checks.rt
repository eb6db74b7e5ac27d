ghost use Rattle.std.specs.Prelude.{◌≡◌, ◌*◌, ◌≤◌, All, OnOk, length};
ghost use Rattle.helios_model.specs.Limits.{longest_trip, most_sites};
ghost use Rattle.helios_model.specs.Squares.{IsSymmetric, IsZeroOnDiagonal};
ghost use Rattle.json_text.specs.Reading.{Gives};
ghost use Rattle.rtt_matrix.specs.Reading.{trips_checked};

use crate::refusal::MatrixRefusal;
use helios_model::{first_away, first_too_long, first_uneven};

/// The first round trip that breaks a rule, where there is one, in the order of the rules.
#[tactic(auto, unfolding(crate::specs::Reading::trips_checked))]
pub(crate) fn check_trips(count: usize, trips: &[u64]) -> Result<(), MatrixRefusal>
    requires some { 1 ≤ count }
    requires few { count ≤ most_sites }
    requires square { length trips.now ≡ count * count }
    ensures exact { Gives MatrixRefusal.NoMemory result (trips_checked count trips.now) }
    ensures short { OnOk result (All (λ trip. trip ≤ longest_trip) trips.now) }
    ensures symmetric { OnOk result (IsSymmetric count trips.now) }
    ensures diagonal { OnOk result (IsZeroOnDiagonal count trips.now) }
{
    if let Some((i, j)) = first_too_long(count, trips) {
        return Err(MatrixRefusal::TooLong(i, j));
    }
    if let Some((i, j)) = first_uneven(count, trips) {
        return Err(MatrixRefusal::NotSymmetric(i, j));
    }
    match first_away(count, trips) {
        None => Ok(()),
        Some(i) => Err(MatrixRefusal::Diagonal(i)),
    }
}
