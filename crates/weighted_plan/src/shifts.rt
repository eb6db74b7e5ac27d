ghost use Rattle.std.specs.Prelude.{◌≡◌, ℕ, ◌+◌, ◌<◌, ◌≤◌, length, slice_index};
ghost use Rattle.helios_model.specs.Limits.{longest_trip};
ghost use Rattle.weighted_plan.specs.Growing.{IsLowered, IsRaised};

/// Lowers the potentials of the rows that have joined the tree.
pub(crate) fn lower(u: &mut [u64], order: &[usize], by: u64)
    requires size { length order.now ≡ length u.old }
    requires enough { (i : ℕ) → i < length u.old → 1 ≤ slice_index order.now i → by ≤ slice_index u.old i }
    ensures { IsLowered order.now by u.old u.new }
{
    for row in 0..u.len() {
        if order[row] >= 1 {
            u[row] -= by;
        }
    }
}

/// Raises the potentials of the columns that have joined the tree.
pub(crate) fn raise(v: &mut [u64], turns: &[usize], by: u64)
    requires size { length turns.now ≡ length v.old }
    requires room { (j : ℕ) → j < length v.old → 1 ≤ slice_index turns.now j → slice_index v.old j + by ≤ longest_trip }
    ensures { IsRaised turns.now by v.old v.new }
{
    for column in 0..v.len() {
        if turns[column] >= 1 {
            v[column] += by;
        }
    }
}
