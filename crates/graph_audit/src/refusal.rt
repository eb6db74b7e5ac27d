//! Why a text is no dumps.
ghost use Rattle.std.specs.Prelude.{◌≡◌, Some};
ghost use Rattle.graph_audit.specs.Lines.{refusal_text};
ghost use Rattle.graph_audit.specs.declared.refusal.DumpsRefusal.TheVariants.{NoMemory};

use helios_model::TxnId;
use json_text::Refusal;
use std::alloc::{AllocError, AllocFailed};
use std::fmt;

/// Why a text is no dumps: the first rule that it breaks, in this order, or that memory ran out.
#[derive(Clone, Copy, Debug, PartialEq, Eq)]
pub enum DumpsRefusal {
    /// The text is no JSON.
    NotJson,
    /// It is no array of 1 to 32 items.
    BadShape,
    /// The first item, by its place from 0, that is no records of a site within the limits.
    BadDump(u64),
    /// The least id that has two different Prepares.
    PrepareDiffers(TxnId),
    /// The least id that has a Commit and no Prepare.
    NoPrepare(TxnId),
    NoMemory,
}

impl fmt::Display for DumpsRefusal {
    ghost output = { λ refusal. Some (refusal_text refusal) };

    fn fmt<W: fmt::Write>(&self, f: &mut fmt::Formatter<W>) -> fmt::Result {
        match self {
            DumpsRefusal::NotJson => write!(f, "not-json"),
            DumpsRefusal::BadShape => write!(f, "bad-shape"),
            DumpsRefusal::BadDump(place) => write!(f, "bad-dump {place}"),
            DumpsRefusal::PrepareDiffers(id) => write!(f, "prepare-differs {id}"),
            DumpsRefusal::NoPrepare(id) => write!(f, "no-prepare {id}"),
            DumpsRefusal::NoMemory => write!(f, "no-memory"),
        }
    }
}

impl Refusal for DumpsRefusal {
    ghost memory = { NoMemory };

    fn no_memory() -> DumpsRefusal {
        DumpsRefusal::NoMemory
    }
}

impl From<AllocError> for DumpsRefusal {
    ghost from_gives = { λ _ refusal. refusal ≡ NoMemory };

    fn from(_error: AllocError) -> DumpsRefusal {
        DumpsRefusal::NoMemory
    }
}

impl<T: Drop> From<AllocFailed<T>> for DumpsRefusal {
    ghost from_gives = { λ _ refusal. refusal ≡ NoMemory };

    fn from(_error: AllocFailed<T>) -> DumpsRefusal {
        DumpsRefusal::NoMemory
    }
}
