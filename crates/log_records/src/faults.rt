//! Why an input was not read.
ghost use Rattle.std.specs.Prelude.{◌≡◌};
ghost use Rattle.log_records.specs.declared.faults.DecodeFault.TheVariants.{NoMemory};

use std::alloc::{AllocError, AllocFailed};

/// Why an input does not begin with a spelling: the first fault from left to right, or want of memory.
#[derive(Clone, Copy, Debug, PartialEq, Eq)]
pub enum DecodeFault {
    /// The input ends before a field is whole, and each field before it was accepted.
    Cut,
    /// The first field that its rule refuses begins at this byte, counted from 0.
    Bad { at: usize },
    /// The 32 bytes behind a message's body are not its digest.
    BadDigest,
    /// There was no memory.
    NoMemory,
}

impl From<AllocError> for DecodeFault {
    ghost from_gives = { λ _ fault. fault ≡ NoMemory };

    fn from(_error: AllocError) -> DecodeFault {
        DecodeFault::NoMemory
    }
}

impl<T: Drop> From<AllocFailed<T>> for DecodeFault {
    ghost from_gives = { λ _ fault. fault ≡ NoMemory };

    fn from(_error: AllocFailed<T>) -> DecodeFault {
        DecodeFault::NoMemory
    }
}
