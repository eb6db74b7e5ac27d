// Writes into a `Vec` at a place up to its end, within the memory that it has.
ghost use Rattle.std.specs.Prelude.{◌≡◌, ◌+◌, ◌-◌, ◌≤◌, ◌++◌, length, replicate, vec_len, vec_capacity};
ghost use Rattle.disk_store.specs.Disk.{over};

/// Puts these bytes over those from a place on, and past the end.
pub(crate) fn put_bytes(cells: &mut Vec<u8>, at: usize, from: &[u8])
    requires place { at ≤ vec_len cells.old }
    requires room { at + length from.now ≤ vec_capacity cells.old }
    ensures items { cells.new.items ≡ over at from.now cells.old.items }
    ensures room { vec_capacity cells.old ≤ vec_capacity cells.new }
{
    let inside = from.len().min(cells.len() - at);
    let (front, back) = from.split_at(inside);
    cells[at..at + inside].copy_from_slice(front);
    cells.extend_from_slice(back).unwrap();
}

/// Fills marks up to a length.
fn reach(marks: &mut Vec<bool>, end: usize, written: bool)
    requires { end ≤ vec_capacity marks.old }
    ensures items { marks.new.items ≡ marks.old.items ++ replicate (end - length marks.old.items) written }
    ensures reached { end ≤ vec_len marks.new }
    ensures room { vec_capacity marks.old ≤ vec_capacity marks.new }
{
    let len = marks.len();
    marks.resize(end.max(len), written).unwrap();
}

/// Marks places that are there.
fn mark_each(marks: &mut [bool], at: usize, size: usize, written: bool)
    requires { at + size ≤ length marks.old }
    ensures { marks.new ≡ over at (replicate size written) marks.old }
{
    marks[at..at + size].fill(written);
}

/// Marks the places of a range as written or not.
pub(crate) fn mark(marks: &mut Vec<bool>, at: usize, size: usize, written: bool)
    requires place { at ≤ vec_len marks.old }
    requires room { at + size ≤ vec_capacity marks.old }
    ensures items { marks.new.items ≡ over at (replicate size written) marks.old.items }
    ensures room { vec_capacity marks.old ≤ vec_capacity marks.new }
{
    reach(marks, at + size, written);
    mark_each(marks, at, size, written);
}
