ghost use Rattle.std.specs.Prelude.{◌≡◌, ℕ, ◌+◌, ◌<◌, ◌≤◌, ◌↔◌, IsTrue, length, slice_index};
ghost use Rattle.helios_model.specs.Limits.{longest_trip};
ghost use Rattle.weighted_plan.specs.Growing.{IsExtended, IsNearest};
ghost use Rattle.weighted_plan.specs.Transport.{IsFeasible};
ghost use Rattle.weighted_plan.specs.Trips.{count_of, distance};

use helios_model::Matrix;

fn trip(m: &Matrix, row: usize, column: usize) -> u64
    requires row { row < count_of m.now }
    requires column { column < count_of m.now }
    ensures { result ≡ distance m.now row column }
{
    m.rtt(m.site(row), m.site(column))
}

// What a row lacks to be tight with a column.
fn lack(m: &Matrix, u: &[u64], v: &[u64], row: usize, column: usize) -> u64
    requires feasible { IsFeasible (count_of m.now) (distance m.now) u.now v.now }
    requires row { row < count_of m.now }
    requires column { column < count_of m.now }
    ensures { result + distance m.now row column ≡ slice_index u.now row + slice_index v.now column }
{
    u[row] + v[column] - trip(m, row, column)
}

/// The column off the tree that lacks least to be tight with its near row, and what it lacks.
pub(crate) fn nearest(
    m: &Matrix,
    u: &[u64],
    v: &[u64],
    turns: &[usize],
    near: &[usize],
    free: usize,
) -> (usize, u64)
    requires feasible { IsFeasible (count_of m.now) (distance m.now) u.now v.now }
    requires columns { length turns.now ≡ count_of m.now }
    requires nears { length near.now ≡ count_of m.now }
    requires within { (j : ℕ) → j < count_of m.now → slice_index near.now j < count_of m.now }
    requires free { free < count_of m.now }
    requires outside { slice_index turns.now free ≡ 0 }
    ensures { IsNearest (count_of m.now) (distance m.now) u.now v.now turns.now near.now result.0 result.1 }
{
    let mut best = free;
    let mut least = lack(m, u, v, near[free], free);
    for column in 0..v.len() {
        if turns[column] == 0 {
            let lacks = lack(m, u, v, near[column], column);
            if lacks < least {
                best = column;
                least = lacks;
            }
        }
    }
    (best, least)
}

// Whether one row lacks less to reach a column than another.
fn is_closer(m: &Matrix, u: &[u64], column: usize, row: usize, other: usize) -> bool
    requires rows { length u.now ≡ count_of m.now }
    requires small { (i : ℕ) → i < count_of m.now → slice_index u.now i ≤ longest_trip }
    requires short { (i j : ℕ) → distance m.now i j ≤ longest_trip }
    requires column { column < count_of m.now }
    requires row { row < count_of m.now }
    requires other { other < count_of m.now }
    ensures { IsTrue result ↔ (slice_index u.now row + distance m.now other column < slice_index u.now other + distance m.now row column) }
{
    u[row] + trip(m, other, column) < u[other] + trip(m, row, column)
}

/// Makes a row that has joined the tree the near one of each column off the tree where it lacks less.
pub(crate) fn extend(m: &Matrix, u: &[u64], turns: &[usize], near: &mut [usize], row: usize)
    requires rows { length u.now ≡ count_of m.now }
    requires small { (i : ℕ) → i < count_of m.now → slice_index u.now i ≤ longest_trip }
    requires short { (i j : ℕ) → distance m.now i j ≤ longest_trip }
    requires columns { length turns.now ≡ count_of m.now }
    requires nears { length near.old ≡ count_of m.now }
    requires within { (j : ℕ) → j < count_of m.now → slice_index near.old j < count_of m.now }
    requires row { row < count_of m.now }
    ensures { IsExtended (distance m.now) u.now turns.now row near.old near.new }
{
    for column in 0..near.len() {
        if turns[column] == 0 && is_closer(m, u, column, row, near[column]) {
            near[column] = row;
        }
    }
}
