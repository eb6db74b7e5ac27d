/// A tree that grows from a row. A row joins it by way of a column; the order of the first row is 1, and that of any
/// other row is the turn of its column. What hasn't joined has 0.
#[derive(Drop)]
pub(crate) struct Tree {
    /// When each row joined.
    pub order: Vec<usize>,
    /// In which turn each column joined.
    pub turns: Vec<usize>,
    /// The row of the tree that lacks least to reach each column.
    pub near: Vec<usize>,
    /// The column by way of which each row joined.
    pub via: Vec<usize>,
    /// How many units may be sent on to each row.
    pub room: Vec<u64>,
}
