/// What was said on a connection of a net in memory.
#[derive(Clone, Copy, Debug, PartialEq, Eq)]
pub struct Connection<'a> {
    /// The address that was dialled; empty after an accept.
    pub dialled: &'a [u8],
    /// The bytes that were written.
    pub sent: &'a [u8],
    /// The bytes that were read.
    pub got: &'a [u8],
    /// Whether a read has given the end.
    pub at_end: bool,
}
