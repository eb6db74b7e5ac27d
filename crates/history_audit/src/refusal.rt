//! Why a text is no history.
ghost use Rattle.std.specs.Prelude.{◌≡◌, Some};
ghost use Rattle.history_audit.specs.Lines.{refusal_text};
ghost use Rattle.history_audit.specs.declared.refusal.HistoryRefusal.TheVariants.{NoMemory};

use json_text::Refusal;
use std::alloc::{AllocError, AllocFailed};
use std::fmt;

/// Why a text is no history: the first rule that it breaks, in this order, or that memory ran out.
#[derive(Clone, Copy, Debug, PartialEq, Eq)]
pub enum HistoryRefusal {
    /// The text is no JSON.
    NotJson,
    /// It is no array.
    BadShape,
    /// The first item, by its place from 0, that is no transaction within the limits, or has an id that was given before.
    BadTransaction(u64),
    NoMemory,
}

impl fmt::Display for HistoryRefusal {
    ghost output = { λ refusal. Some (refusal_text refusal) };

    fn fmt<W: fmt::Write>(&self, f: &mut fmt::Formatter<W>) -> fmt::Result {
        match self {
            HistoryRefusal::NotJson => write!(f, "not-json"),
            HistoryRefusal::BadShape => write!(f, "bad-shape"),
            HistoryRefusal::BadTransaction(place) => write!(f, "bad-transaction {place}"),
            HistoryRefusal::NoMemory => write!(f, "no-memory"),
        }
    }
}

impl Refusal for HistoryRefusal {
    ghost memory = { NoMemory };

    fn no_memory() -> HistoryRefusal {
        HistoryRefusal::NoMemory
    }
}

impl From<AllocError> for HistoryRefusal {
    ghost from_gives = { λ _ refusal. refusal ≡ NoMemory };

    fn from(_error: AllocError) -> HistoryRefusal {
        HistoryRefusal::NoMemory
    }
}

impl<T: Drop> From<AllocFailed<T>> for HistoryRefusal {
    ghost from_gives = { λ _ refusal. refusal ≡ NoMemory };

    fn from(_error: AllocFailed<T>) -> HistoryRefusal {
        HistoryRefusal::NoMemory
    }
}
