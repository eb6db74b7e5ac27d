ghost use Rattle.std.specs.Prelude.{◌≡◌};
ghost use Rattle.node_host.specs.declared.fault.HostFault.TheVariants.{NoMemory};
ghost use Rattle.node_host.specs.Faults.{passed};

use helios_model::SiteId;
use node_journal::JournalFault;
use std::alloc::AllocError;

/// Why a host was not opened, or a batch not taken. A fault consumes the host; the journal is opened again.
#[derive(Clone, Copy, Debug, PartialEq, Eq)]
pub enum HostFault {
    /// A call on the disk failed.
    DiskFailed,
    /// The gate at this place leads nowhere, or the payload behind it is no head (the first one) or no batch of this site (a later one).
    Damaged { at: u64 },
    /// The next gate would end past the limit.
    JournalFull,
    /// The head names the fingerprint of another plan.
    WrongPlan { kept: [u8; 32], given: [u8; 32] },
    /// The head names another site.
    WrongSite { kept: SiteId, given: SiteId },
    /// There was no memory.
    NoMemory,
}

impl From<JournalFault> for HostFault {
    ghost from_gives = { λ e fault. fault ≡ passed e };

    fn from(fault: JournalFault) -> Self {
        match fault {
            JournalFault::DiskFailed => HostFault::DiskFailed,
            JournalFault::Damaged { at } => HostFault::Damaged { at },
            JournalFault::JournalFull => HostFault::JournalFull,
            JournalFault::NoMemory => HostFault::NoMemory,
        }
    }
}

impl From<AllocError> for HostFault {
    ghost from_gives = { λ _ fault. fault ≡ NoMemory };

    fn from(_: AllocError) -> Self {
        HostFault::NoMemory
    }
}
