ghost use Rattle.std.specs.Prelude.{◌<◌, IfOk};
ghost use Rattle.weighted_plan.specs.Trees.{IsPlanted};

use crate::tree::Tree;
use std::alloc::{AllocError, Global};

/// A tree of one row, which has so many units to send.
pub(crate) fn plant(alloc: Global, count: usize, row: usize, most: u64) -> Result<Tree, AllocError>
    requires { row < count }
    ensures { IfOk result (IsPlanted count row most) }
{
    let mut order = vec![in alloc; 0usize; count]?;
    order[row] = 1;
    let turns = vec![in alloc; 0usize; count]?;
    let near = vec![in alloc; row; count]?;
    let via = vec![in alloc; 0usize; count]?;
    let mut room = vec![in alloc; 0u64; count]?;
    room[row] = most;
    Ok(Tree {
        order,
        turns,
        near,
        via,
        room,
    })
}
