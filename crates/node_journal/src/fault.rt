ghost use Rattle.std.specs.Prelude.{◌≡◌, Some};
ghost use Rattle.node_journal.specs.declared.fault.JournalFault.TheVariants.{DiskFailed, NoMemory};
ghost use Rattle.node_journal.specs.Lines.{fault_text};

use outside_io::Failed;
use std::alloc::AllocError;
use std::error::Error;
use std::fmt;

/// Why a journal was not opened, read or added to.
#[derive(Clone, Copy, Debug, PartialEq, Eq)]
pub enum JournalFault {
    /// A call on the disk failed.
    DiskFailed,
    /// The open gate at this place leads past the end, or to a length that no payload has.
    Damaged { at: u64 },
    /// The next gate would end past the limit.
    JournalFull,
    /// There was no memory for a payload.
    NoMemory,
}

impl From<Failed> for JournalFault {
    ghost from_gives = { λ _ fault. fault ≡ DiskFailed };

    fn from(_: Failed) -> Self {
        JournalFault::DiskFailed
    }
}

impl From<AllocError> for JournalFault {
    ghost from_gives = { λ _ fault. fault ≡ NoMemory };

    fn from(_: AllocError) -> Self {
        JournalFault::NoMemory
    }
}

impl fmt::Display for JournalFault {
    ghost output = { λ fault. Some (fault_text fault) };

    fn fmt<W: fmt::Write>(&self, f: &mut fmt::Formatter<W>) -> fmt::Result {
        match self {
            JournalFault::DiskFailed => write!(f, "the disk failed"),
            JournalFault::Damaged { at } => write!(f, "the journal is damaged at byte {at}"),
            JournalFault::JournalFull => write!(f, "the journal is full"),
            JournalFault::NoMemory => write!(f, "no memory"),
        }
    }
}

impl Error for JournalFault {}
