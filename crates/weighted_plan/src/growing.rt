//! The tree grows from a row, a column each turn with the rows that send to it.
ghost use Rattle.std.specs.Prelude.{◌≡◌, ℕ, ◌+◌, ◌*◌, ◌<◌, ◌≤◌, ◌↔◌, IsTrue, length, slice_index, slice_set};
ghost use Rattle.helios_model.specs.Grid.{at};
ghost use Rattle.helios_model.specs.Limits.{longest_trip, most_sites};
ghost use Rattle.weighted_plan.specs.Trees.{GrowsOn, HasGrown, HasJoined, StandsOn};
ghost use Rattle.weighted_plan.specs.Trips.{count_of, distance};

use crate::cells::number;
use crate::lacks::{extend, nearest};
use crate::shifts::{lower, raise};
use crate::tree::Tree;
use helios_model::Matrix;

// A row that sends to a column, which joined in this turn, joins the tree if it isn't there.
#[tactic(auto, using(crate::proofs::Joining::joined_none))]
fn join_row(
    m: &Matrix,
    u: &[u64],
    flow: &[u64],
    tree: &mut Tree,
    column: usize,
    row: usize,
    turn: usize,
)
    requires few { count_of m.now ≤ most_sites }
    requires rows { length u.now ≡ count_of m.now }
    requires small { (i : ℕ) → i < count_of m.now → slice_index u.now i ≤ longest_trip }
    requires short { (i j : ℕ) → distance m.now i j ≤ longest_trip }
    requires cells { length flow.now ≡ count_of m.now * count_of m.now }
    requires row { row < count_of m.now }
    requires column { column < count_of m.now }
    requires late { 2 ≤ turn }
    requires turn { slice_index tree.old.turns.items column ≡ turn }
    requires grows { GrowsOn (count_of m.now) (distance m.now) (turn + 1) u.now flow.now tree.old }
    ensures grows { GrowsOn (count_of m.now) (distance m.now) (turn + 1) u.now flow.now tree.new }
    ensures joined { HasJoined (count_of m.now) tree.old tree.new }
    ensures there { 1 ≤ at (count_of m.now) flow.now row column → 1 ≤ slice_index tree.new.order.items row }
{
    if tree.order[row] >= 1 {
        return;
    }
    let units = number(m.count() as usize, flow, row, column);
    if units == 0 {
        return;
    }
    tree.room[row] = tree.room[tree.near[column]].min(units);
    tree.order[row] = turn;
    tree.via[row] = column;
    extend(m, u, &tree.turns, &mut tree.near, row);
}

// Each row that sends to a column, which joined in this turn, joins the tree.
#[tactic(auto, using(crate::proofs::Joining::joined_none, crate::proofs::Joining::joined_more))]
fn join_rows(m: &Matrix, u: &[u64], flow: &[u64], tree: &mut Tree, column: usize, turn: usize)
    requires few { count_of m.now ≤ most_sites }
    requires rows { length u.now ≡ count_of m.now }
    requires small { (i : ℕ) → i < count_of m.now → slice_index u.now i ≤ longest_trip }
    requires short { (i j : ℕ) → distance m.now i j ≤ longest_trip }
    requires cells { length flow.now ≡ count_of m.now * count_of m.now }
    requires column { column < count_of m.now }
    requires late { 2 ≤ turn }
    requires turn { slice_index tree.old.turns.items column ≡ turn }
    requires grows { GrowsOn (count_of m.now) (distance m.now) (turn + 1) u.now flow.now tree.old }
    ensures grows { GrowsOn (count_of m.now) (distance m.now) (turn + 1) u.now flow.now tree.new }
    ensures joined { HasJoined (count_of m.now) tree.old tree.new }
    ensures closed { (i : ℕ) → i < count_of m.now → 1 ≤ at (count_of m.now) flow.now i column → 1 ≤ slice_index tree.new.order.items i }
{
    for row in 0..m.count() as usize {
        join_row(m, u, flow, tree, column, row, turn);
    }
}

/// Grows a tree, by a column each turn, until a column that has still to take some is tight with a row of it.
pub(crate) fn grow(
    m: &Matrix,
    u: &mut [u64],
    v: &mut [u64],
    flow: &[u64],
    demand: &[u64],
    free: usize,
    tree: &mut Tree,
) -> usize
    requires few { count_of m.now ≤ most_sites }
    requires free { free < count_of m.now }
    requires wanting { 1 ≤ slice_index demand.now free }
    requires tree { StandsOn (count_of m.now) (distance m.now) (slice_index tree.old.room.items) 2 u.old v.old flow.now demand.now tree.old }
    ensures { HasGrown (count_of m.now) (distance m.now) (slice_index tree.old.room.items) u.new v.new flow.now demand.now tree.new result }
{
    let mut turn = 2;
    loop {
        let (column, by) = nearest(m, u, v, &tree.turns, &tree.near, free);
        lower(u, &tree.order, by);
        raise(v, &tree.turns, by);
        if demand[column] >= 1 {
            return column;
        }
        tree.turns[column] = turn;
        join_rows(m, u, flow, tree, column, turn);
        turn += 1;
    }
}
