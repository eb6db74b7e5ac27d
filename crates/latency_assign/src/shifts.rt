ghost use Rattle.std.specs.Prelude.{◌≡◌, ℕ, ◌+◌, ◌<◌, ◌≤◌, length, slice_index};
ghost use Rattle.helios_model.specs.Limits.{longest_trip};
ghost use Rattle.latency_assign.specs.Search.{IsLowered, IsRaised};

/// Lowers the potentials of the rows that have joined the tree.
pub(crate) fn lower(u: &mut [u64], order: &[usize], by: u64)
    requires size { length order.now ≡ length u.old }
    requires enough { (i : ℕ) → i < length u.old → 1 ≤ slice_index order.now i → by ≤ slice_index u.old i }
    ensures { IsLowered order.now by u.old u.new }
{
    for row in 0..u.len() {
        if order[row] >= 1 {
            u[row] -= by;
        }
    }
}

/// Raises the potentials of the columns that have joined the tree.
pub(crate) fn raise(w: &mut [u64], order: &[usize], by: u64)
    requires size { length order.now ≡ length w.old }
    requires room { (q : ℕ) → q < length w.old → 2 ≤ slice_index order.now q → slice_index w.old q + by ≤ longest_trip }
    ensures { IsRaised order.now by w.old w.new }
{
    for place in 0..w.len() {
        if order[place] >= 2 {
            w[place] += by;
        }
    }
}
