ghost use Rattle.std.specs.Prelude.{◌≡◌, ◌+◌, ◌<◌, OnOk, length, replicate, swap};
ghost use Rattle.latency_assign.specs.Assignment.{count_of, distance};
ghost use Rattle.latency_assign.specs.Search.{IsMatched, IsTree, IsGrown};

use crate::lacks::{extend, nearest};
use crate::shifts::{lower, raise};
use helios_model::Matrix;
use std::alloc::{AllocError, Global};

// Grows a tree from a row, by a column and its partner each turn, until a free column is tight with a row of it.
fn grow(
    m: &Matrix,
    k: usize,
    u: &mut [u64],
    w: &mut [u64],
    s: &[u8],
    order: &mut [usize],
    near: &mut [usize],
) -> usize
    requires row { k < count_of m.now }
    requires tree { IsTree (count_of m.now) (distance m.now) k 2 u.old w.old s.now order.old near.old }
    ensures { IsGrown (count_of m.now) (distance m.now) k u.new w.new s.now order.new near.new result }
{
    let mut turn = 2;
    loop {
        let (place, by) = nearest(m, u, w, s, order, near, k);
        lower(u, order, by);
        raise(w, order, by);
        if place >= k {
            return place;
        }
        order[place] = turn;
        turn += 1;
        extend(m, u, s, order, near, place);
    }
}

// Exchanges the columns at two places.
fn exchange(w: &mut [u64], s: &mut [u8], a: usize, b: usize)
    requires size { length w.old ≡ length s.old }
    requires first { a < length s.old }
    requires second { b < length s.old }
    ensures potentials { w.new ≡ swap w.old a b }
    ensures columns { s.new ≡ swap s.old a b }
{
    w.swap(a, b);
    s.swap(a, b);
}

// Finds a partner for row k by a tree that grows from it; the two lists are the tree's, still empty.
#[tactic(auto, using(crate::proofs::Handing::ended_path))]
fn match_by_tree(
    m: &Matrix,
    k: usize,
    u: &mut [u64],
    w: &mut [u64],
    s: &mut [u8],
    order: &mut [usize],
    near: &mut [usize],
)
    requires row { k < count_of m.now }
    requires matched { IsMatched (count_of m.now) (distance m.now) k u.old w.old s.old }
    requires order { order.old ≡ replicate (count_of m.now) 0 }
    requires near { near.old ≡ replicate (count_of m.now) k }
    ensures { IsMatched (count_of m.now) (distance m.now) (k + 1) u.new w.new s.new }
{
    order[k] = 1;
    let end = grow(m, k, u, w, s, order, near);
    let mut row = near[end];
    exchange(w, s, k, end);
    while order[row] > 1 {
        exchange(w, s, k, row);
        row = near[row];
    }
}

/// Finds a partner for row k, where the rows before it have theirs.
pub(crate) fn match_row(
    alloc: Global,
    m: &Matrix,
    k: usize,
    u: &mut [u64],
    w: &mut [u64],
    s: &mut [u8],
) -> Result<(), AllocError>
    requires row { k < count_of m.now }
    requires matched { IsMatched (count_of m.now) (distance m.now) k u.old w.old s.old }
    ensures { OnOk result (IsMatched (count_of m.now) (distance m.now) (k + 1) u.new w.new s.new) }
{
    let mut order = vec![in alloc; 0usize; s.len()]?;
    let mut near = vec![in alloc; k; s.len()]?;
    match_by_tree(m, k, u, w, s, &mut order, &mut near);
    Ok(())
}
