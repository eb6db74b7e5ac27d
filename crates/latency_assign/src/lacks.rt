ghost use Rattle.std.specs.Prelude.{◌≡◌, ℕ, ◌+◌, ◌<◌, ◌≤◌, ◌↔◌, IsTrue, length, slice_index};
ghost use Rattle.helios_model.specs.Limits.{longest_trip};
ghost use Rattle.latency_assign.specs.Assignment.{count_of, distance};
ghost use Rattle.latency_assign.specs.Search.{IsFeasible, IsNearest, IsExtended};

use helios_model::Matrix;

fn trip(m: &Matrix, row: usize, column: u8) -> u64
    requires row { row < count_of m.now }
    requires column { column < count_of m.now }
    ensures { result ≡ distance m.now row column }
{
    m.rtt(m.site(row), m.site(column as usize))
}

// What a row lacks to be tight with the column at a place.
fn lack(m: &Matrix, u: &[u64], w: &[u64], s: &[u8], row: usize, place: usize) -> u64
    requires feasible { IsFeasible (count_of m.now) (distance m.now) u.now w.now s.now }
    requires row { row < count_of m.now }
    requires place { place < count_of m.now }
    ensures { result + distance m.now row (slice_index s.now place) ≡ slice_index u.now row + slice_index w.now place }
{
    u[row] + w[place] - trip(m, row, s[place])
}

/// The place off the tree that lacks least to be tight with its near row, and what it lacks.
pub(crate) fn nearest(
    m: &Matrix,
    u: &[u64],
    w: &[u64],
    s: &[u8],
    order: &[usize],
    near: &[usize],
    root: usize,
) -> (usize, u64)
    requires feasible { IsFeasible (count_of m.now) (distance m.now) u.now w.now s.now }
    requires orders { length order.now ≡ count_of m.now }
    requires nears { length near.now ≡ count_of m.now }
    requires within { (q : ℕ) → q < count_of m.now → slice_index near.now q < count_of m.now }
    requires root { root < count_of m.now }
    requires outside { slice_index order.now root ≤ 1 }
    ensures { IsNearest (count_of m.now) (distance m.now) u.now w.now s.now order.now near.now result.0 result.1 }
{
    let mut best = root;
    let mut least = lack(m, u, w, s, near[root], root);
    for place in 0..s.len() {
        if order[place] <= 1 {
            let lacks = lack(m, u, w, s, near[place], place);
            if lacks < least {
                best = place;
                least = lacks;
            }
        }
    }
    (best, least)
}

// Whether one row lacks less to reach a column than another.
fn is_closer(m: &Matrix, u: &[u64], column: u8, row: usize, other: usize) -> bool
    requires rows { length u.now ≡ count_of m.now }
    requires small { (i : ℕ) → i < count_of m.now → slice_index u.now i ≤ longest_trip }
    requires short { (i j : ℕ) → distance m.now i j ≤ longest_trip }
    requires column { column < count_of m.now }
    requires row { row < count_of m.now }
    requires other { other < count_of m.now }
    ensures { IsTrue result ↔ (slice_index u.now row + distance m.now other column < slice_index u.now other + distance m.now row column) }
{
    u[row] + trip(m, other, column) < u[other] + trip(m, row, column)
}

/// Makes a row that has joined the tree the near one of each place off the tree where it lacks less.
pub(crate) fn extend(
    m: &Matrix,
    u: &[u64],
    s: &[u8],
    order: &[usize],
    near: &mut [usize],
    row: usize,
)
    requires rows { length u.now ≡ count_of m.now }
    requires small { (i : ℕ) → i < count_of m.now → slice_index u.now i ≤ longest_trip }
    requires short { (i j : ℕ) → distance m.now i j ≤ longest_trip }
    requires columns { length s.now ≡ count_of m.now }
    requires below { (q : ℕ) → q < count_of m.now → slice_index s.now q < count_of m.now }
    requires orders { length order.now ≡ count_of m.now }
    requires nears { length near.old ≡ count_of m.now }
    requires within { (q : ℕ) → q < count_of m.now → slice_index near.old q < count_of m.now }
    requires row { row < count_of m.now }
    ensures { IsExtended (distance m.now) u.now s.now order.now row near.old near.new }
{
    for place in 0..near.len() {
        if order[place] <= 1 && is_closer(m, u, s[place], row, near[place]) {
            near[place] = row;
        }
    }
}
