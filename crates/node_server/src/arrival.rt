/// How a read ended.
#[derive(Clone, Copy, Debug, PartialEq, Eq)]
pub(crate) enum Arrival {
    /// Bytes came.
    Bytes,
    /// The input has ended.
    End,
    /// The read failed.
    Failed,
    /// There was no memory for room to read into.
    NoMemory,
}
