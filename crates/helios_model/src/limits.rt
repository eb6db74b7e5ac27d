//! The limits of the protocol, each once and with its unit.

/// The most sites that a cluster has.
pub const MOST_SITES: u8 = 32;

/// The most bytes of a site's name.
pub const MOST_NAME_BYTES: usize = 32;

/// The most bytes of a key.
pub const MOST_KEY_BYTES: usize = 64;

/// The most bytes of a stored value.
pub const MOST_VALUE_BYTES: usize = 1024;

/// The longest round trip, in microseconds.
pub const LONGEST_TRIP: u64 = 1_000_000_000;

/// The greatest commit latency, in half microseconds.
pub const GREATEST_LATENCY: u64 = 2_000_000_000;

/// The most keys that a transaction reads, and the most that it writes.
pub const MOST_ITEMS: usize = 16;

/// The most records of one message.
pub const MOST_RECORDS: usize = 64;

/// The most inputs of one batch.
pub const MOST_INPUTS: usize = 16;

/// The most own transactions that may be unfinished at a site.
pub const MOST_OPEN: u64 = 65_536;

/// The greatest time in an id, a table or a message, in half microseconds.
pub const LAST_TIME: u64 = 1 << 62;

/// The greatest reading of a clock that counts, in half microseconds.
pub const LAST_READING: u64 = (1 << 62) - (1 << 18);

/// The time of a site from which on it answers that its clock is spent, in half microseconds.
pub const SPENT_TIME: u64 = (1 << 62) - (1 << 17);
