//! Why a connection's bytes were not read.
ghost use Rattle.std.specs.Prelude.{◌≡◌};
ghost use Rattle.link_codec.specs.declared.faults.LinkFault.TheVariants.{NoMemory};
ghost use Rattle.link_codec.specs.Faults.{passed};

use log_records::DecodeFault;
use std::alloc::{AllocError, AllocFailed};

/// Why an input was not read: what stands at its front, or want of memory.
#[derive(Clone, Copy, Debug, PartialEq, Eq)]
pub enum LinkFault {
    /// The input ends before what it begins with does.
    Cut,
    /// Nothing begins so, whatever follows.
    Bad,
    /// There was no memory.
    NoMemory,
}

impl From<DecodeFault> for LinkFault {
    ghost from_gives = { λ e fault. fault ≡ passed e };

    fn from(fault: DecodeFault) -> LinkFault {
        match fault {
            DecodeFault::Cut | DecodeFault::Bad { .. } | DecodeFault::BadDigest => LinkFault::Bad,
            DecodeFault::NoMemory => LinkFault::NoMemory,
        }
    }
}

impl From<AllocError> for LinkFault {
    ghost from_gives = { λ _ fault. fault ≡ NoMemory };

    fn from(_error: AllocError) -> LinkFault {
        LinkFault::NoMemory
    }
}

impl<T: Drop> From<AllocFailed<T>> for LinkFault {
    ghost from_gives = { λ _ fault. fault ≡ NoMemory };

    fn from(_error: AllocFailed<T>) -> LinkFault {
        LinkFault::NoMemory
    }
}
