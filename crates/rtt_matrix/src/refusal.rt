ghost use Rattle.std.specs.Prelude.{◌≡◌, Some};
ghost use Rattle.rtt_matrix.specs.declared.refusal.MatrixRefusal.TheVariants.{NoMemory};
ghost use Rattle.rtt_matrix.specs.Lines.{refusal_text};

use json_text::Refusal;
use std::alloc::{AllocError, AllocFailed};
use std::fmt;

/// Why a text is no matrix: the first rule that it breaks, or that memory ran out.
#[derive(Clone, Copy, Debug, PartialEq, Eq)]
pub enum MatrixRefusal {
    /// The text is no JSON.
    NotJson,
    /// It is no object with an array of texts as `names` and an array as `rtt`.
    BadShape,
    /// There are so many names, not 1 to 32.
    SiteCount(u64),
    /// The first name, by its place, that breaks the limits or equals an earlier one.
    BadName(u64),
    /// The first row that is missing or isn't an array of as many whole numbers as there are names. A row too many is
    /// the one with the number of names.
    BadRow(u64),
    /// The first round trip, by row and column, over 1,000,000,000 microseconds.
    TooLong(u64, u64),
    /// The first two sites, the earlier one first, whose two round trips differ.
    NotSymmetric(u64, u64),
    /// The first site whose round trip to itself isn't 0.
    Diagonal(u64),
    NoMemory,
}

impl fmt::Display for MatrixRefusal {
    ghost output = { λ refusal. Some (refusal_text refusal) };

    fn fmt<W: fmt::Write>(&self, f: &mut fmt::Formatter<W>) -> fmt::Result {
        match self {
            MatrixRefusal::NotJson => write!(f, "not-json"),
            MatrixRefusal::BadShape => write!(f, "bad-shape"),
            MatrixRefusal::SiteCount(count) => write!(f, "site-count {count}"),
            MatrixRefusal::BadName(i) => write!(f, "bad-name {i}"),
            MatrixRefusal::BadRow(i) => write!(f, "bad-row {i}"),
            MatrixRefusal::TooLong(i, j) => write!(f, "too-long {i} {j}"),
            MatrixRefusal::NotSymmetric(i, j) => write!(f, "not-symmetric {i} {j}"),
            MatrixRefusal::Diagonal(i) => write!(f, "diagonal {i}"),
            MatrixRefusal::NoMemory => write!(f, "no-memory"),
        }
    }
}

impl Refusal for MatrixRefusal {
    ghost memory = { NoMemory };

    fn no_memory() -> MatrixRefusal {
        MatrixRefusal::NoMemory
    }
}

impl From<AllocError> for MatrixRefusal {
    ghost from_gives = { λ _ refusal. refusal ≡ NoMemory };

    fn from(_error: AllocError) -> MatrixRefusal {
        MatrixRefusal::NoMemory
    }
}

impl<T: Drop> From<AllocFailed<T>> for MatrixRefusal {
    ghost from_gives = { λ _ refusal. refusal ≡ NoMemory };

    fn from(_error: AllocFailed<T>) -> MatrixRefusal {
        MatrixRefusal::NoMemory
    }
}
