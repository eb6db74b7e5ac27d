//! The round trips between the sites as a square, row after row, and the first of them that breaks a rule of a matrix.
ghost use Rattle.std.specs.Prelude.{◌≡◌, ℕ, ◌*◌, ◌<◌, ◌≤◌, All, IfNone, length};
ghost use Rattle.helios_model.specs.Limits.{longest_trip, most_sites};
ghost use Rattle.helios_model.specs.Squares.{first_away, first_too_long, first_uneven, is_uneven, row_and_column, too_long_place, uneven_place, IsSymmetric, IsZeroOnDiagonal};

use crate::limits::LONGEST_TRIP;

fn row_and_column(count: usize, place: usize) -> (u64, u64)
    requires { 1 ≤ count }
    ensures { result ≡ row_and_column count place }
{
    ((place / count) as u64, (place % count) as u64)
}

fn too_long_place(trips: &[u64]) -> Option<usize>
    ensures { result ≡ too_long_place trips.now }
{
    (0..trips.len()).find(|place| trips[*place] > LONGEST_TRIP)
}

/// The row and the column of the first round trip over 1,000,000,000 microseconds.
#[tactic(auto, using(crate::proofs::EvenSquares::none_too_long))]
pub fn first_too_long(count: usize, trips: &[u64]) -> Option<(u64, u64)>
    requires { 1 ≤ count }
    ensures exact { result ≡ first_too_long count trips.now }
    ensures none { IfNone result (All (λ trip. trip ≤ longest_trip) trips.now) }
{
    too_long_place(trips).map(|place| row_and_column(count, place))
}

// Whether a place stands above the diagonal and has another number than its mirror image.
#[tactic(auto, using(crate::proofs::EvenSquares::mirror_within))]
fn is_uneven(count: usize, trips: &[u64], place: usize) -> bool
    requires few { count ≤ most_sites }
    requires square { length trips.now ≡ count * count }
    requires within { place < length trips.now }
    ensures { result ≡ is_uneven count trips.now place }
{
    let (row, column) = (place / count, place % count);
    row < column && trips[row * count + column] != trips[column * count + row]
}

fn uneven_place(count: usize, trips: &[u64]) -> Option<usize>
    requires few { count ≤ most_sites }
    requires square { length trips.now ≡ count * count }
    ensures { result ≡ uneven_place count trips.now }
{
    (0..trips.len()).find(|place| is_uneven(count, trips, *place))
}

/// The row and the column of the first round trip above the diagonal that differs from the one back.
#[tactic(auto, using(crate::proofs::EvenSquares::none_uneven))]
pub fn first_uneven(count: usize, trips: &[u64]) -> Option<(u64, u64)>
    requires some { 1 ≤ count }
    requires few { count ≤ most_sites }
    requires square { length trips.now ≡ count * count }
    ensures exact { result ≡ first_uneven count trips.now }
    ensures none { IfNone result (IsSymmetric count trips.now) }
{
    uneven_place(count, trips).map(|place| row_and_column(count, place))
}

fn away_place(count: usize, trips: &[u64]) -> Option<usize>
    requires few { count ≤ most_sites }
    requires square { length trips.now ≡ count * count }
    ensures { result ≡ first_away count trips.now }
{
    (0..count).find(|i| trips[*i * count + *i] != 0)
}

/// The number of the first site whose round trip to itself isn't 0.
#[tactic(auto, using(crate::proofs::EvenSquares::none_away))]
pub fn first_away(count: usize, trips: &[u64]) -> Option<u64>
    requires few { count ≤ most_sites }
    requires square { length trips.now ≡ count * count }
    ensures exact { result ≡ first_away count trips.now }
    ensures none { IfNone result (IsZeroOnDiagonal count trips.now) }
{
    away_place(count, trips).map(|i| i as u64)
}
