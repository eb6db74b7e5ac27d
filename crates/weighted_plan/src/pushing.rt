//! Units are sent along a tree, from its first row to a column that has still to take some.
ghost use Rattle.std.specs.Prelude.{◌≡◌, ℕ, ◌+◌, ◌-◌, ◌*◌, ◌<◌, ◌≤◌, ◌^◌, length, slice_index};
ghost use Rattle.helios_model.specs.Grid.{at, put};
ghost use Rattle.helios_model.specs.Limits.{most_sites};
ghost use Rattle.weighted_plan.specs.Flows.{column_sum};
ghost use Rattle.weighted_plan.specs.Handing.{IsHanded, IsSent};
ghost use Rattle.weighted_plan.specs.Trees.{HasRoom, HasShape};
ghost use Rattle.weighted_plan.specs.Weighted.{greatest_weight};

use crate::cells::cell;
use crate::tree::Tree;

fn add(count: usize, flow: &mut [u64], row: usize, column: usize, amount: u64)
    requires few { count ≤ most_sites }
    requires cells { length flow.old ≡ count * count }
    requires row { row < count }
    requires column { column < count }
    requires fits { at count flow.old row column + amount < 2 ^ 64 }
    ensures { flow.new ≡ put count flow.old row column (at count flow.old row column + amount) }
{
    flow[cell(count, row, column)] += amount;
}

fn take(count: usize, flow: &mut [u64], row: usize, column: usize, amount: u64)
    requires few { count ≤ most_sites }
    requires cells { length flow.old ≡ count * count }
    requires row { row < count }
    requires column { column < count }
    requires enough { amount ≤ at count flow.old row column }
    ensures { flow.new ≡ put count flow.old row column (at count flow.old row column - amount) }
{
    flow[cell(count, row, column)] -= amount;
}

// Hands so many units on along a tree, to a column by way of its near row, and answers the first row.
fn hand_on(count: usize, flow: &mut [u64], tree: &Tree, end: usize, amount: u64) -> usize
    requires few { count ≤ most_sites }
    requires cells { length flow.old ≡ count * count }
    requires light { (j : ℕ) → j < count → column_sum count flow.old j ≤ greatest_weight }
    requires shape { HasShape count tree.now }
    requires rooms { HasRoom count flow.old tree.now }
    requires end { end < count }
    requires few_units { amount ≤ greatest_weight }
    requires fits { amount ≤ slice_index tree.now.room.items (slice_index tree.now.near.items end) }
    ensures { IsHanded count tree.now.order.items tree.now.turns.items tree.now.near.items tree.now.room.items flow.old end amount flow.new result }
{
    let mut row = tree.near[end];
    add(count, flow, row, end, amount);
    while tree.order[row] > 1 {
        let column = tree.via[row];
        take(count, flow, row, column, amount);
        row = tree.near[column];
        add(count, flow, row, column, amount);
    }
    row
}

/// Sends as many units along a tree as there is room for and the column has still to take.
#[tactic(auto, using(crate::proofs::Sending::is_sent))]
pub(crate) fn push(
    count: usize,
    flow: &mut [u64],
    supply: &mut [u64],
    demand: &mut [u64],
    tree: &Tree,
    end: usize,
)
    requires few { count ≤ most_sites }
    requires cells { length flow.old ≡ count * count }
    requires supplies { length supply.old ≡ count }
    requires demands { length demand.old ≡ count }
    requires light { (j : ℕ) → j < count → column_sum count flow.old j + slice_index demand.old j ≤ greatest_weight }
    requires shape { HasShape count tree.now }
    requires rooms { HasRoom count flow.old tree.now }
    requires first_room { (i : ℕ) → i < count → slice_index tree.now.order.items i ≡ 1 → slice_index tree.now.room.items i ≤ slice_index supply.old i }
    requires end { end < count }
    requires wanting { 1 ≤ slice_index demand.old end }
    ensures { IsSent count tree.now.turns.items tree.now.near.items end flow.old supply.old demand.old flow.new supply.new demand.new }
{
    let amount = tree.room[tree.near[end]].min(demand[end]);
    let row = hand_on(count, flow, tree, end, amount);
    supply[row] -= amount;
    demand[end] -= amount;
}
