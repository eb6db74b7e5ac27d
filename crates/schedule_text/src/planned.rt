//! The inputs of a schedule, and what a planned request reads.
ghost use Rattle.std.specs.Prelude.{◌≡◌};

use helios_model::{Key, Keyed, Puts, SiteId, TxnId, Version};
use json_text::NamedVersion;
use std::marker::Model;

/// The version that a planned request reads.
#[derive(Clone, Copy, Debug, PartialEq, Eq)]
pub enum PlannedVersion {
    At(Version),
    /// The version that is current at the site when the batch begins.
    Current,
}

impl From<NamedVersion> for PlannedVersion {
    ghost use Rattle.schedule_text.specs.Inputs.{planned_version};

    ghost from_gives = { λ named planned. planned ≡ planned_version named };

    fn from(named: NamedVersion) -> PlannedVersion {
        match named {
            NamedVersion::Current => PlannedVersion::Current,
            NamedVersion::At(version) => PlannedVersion::At(version),
        }
    }
}

/// A key that a planned request reads, and the version that it reads.
#[derive(Debug, Drop)]
pub struct PlannedRead {
    pub key: Key,
    pub version: PlannedVersion,
}

impl Keyed for PlannedRead {
    ghost key_of = { λ r. r.key };

    fn key(&self) -> &Key {
        &self.key
    }
}

/// The reads of a planned request, in their order.
#[derive(Debug, Drop)]
pub struct PlannedReads {
    items: Vec<PlannedRead>,
}

impl Model for PlannedReads {
    ghost use Rattle.std.specs.Prelude.{List};
    ghost use Rattle.schedule_text.specs.declared.planned.PlannedRead.{PlannedRead};

    ghost Value = { List PlannedRead };

    ghost view = { λ l. l.items.items };
}

impl PlannedReads {
    pub fn new(items: Vec<PlannedRead>) -> PlannedReads
        ensures { result ≡ items.items }
    {
        PlannedReads { items }
    }

    pub fn items(&self) -> &[PlannedRead]
        ensures { result.now ≡ self.now }
    {
        self.items.as_slice()
    }
}

/// An input of a schedule. Each `at` is a reading of the site's clock, in half microseconds.
#[derive(Debug, Drop)]
pub enum Planned {
    /// Asks for the current value of a key.
    Get(Key),
    /// Asks what became of a transaction.
    Status(TxnId),
    /// Asks for a transaction.
    Request {
        at: u64,
        reads: PlannedReads,
        puts: Puts,
    },
    /// Makes a message to another site.
    Pull {
        at: u64,
        to: SiteId,
    },
    /// Takes the message with this number, counted from 0 in the order in which messages are released.
    Push {
        at: u64,
        message: u64,
    },
}

impl Planned {
    ghost use Rattle.schedule_text.specs.Steps.{is_journaled};

    /// Whether the input goes into the journal.
    pub fn is_journaled(&self) -> bool
        ensures { result ≡ is_journaled self.now }
    {
        match self {
            Planned::Get(_) | Planned::Status(_) => false,
            Planned::Request { .. } | Planned::Pull { .. } | Planned::Push { .. } => true,
        }
    }
}

/// The inputs of a planned batch, in their order.
#[derive(Debug, Drop)]
pub struct PlannedInputs {
    items: Vec<Planned>,
}

impl Model for PlannedInputs {
    ghost use Rattle.std.specs.Prelude.{List};
    ghost use Rattle.schedule_text.specs.declared.planned.Planned.{Planned};

    ghost Value = { List Planned };

    ghost view = { λ l. l.items.items };
}

impl PlannedInputs {
    pub fn new(items: Vec<Planned>) -> PlannedInputs
        ensures { result ≡ items.items }
    {
        PlannedInputs { items }
    }

    pub fn items(&self) -> &[Planned]
        ensures { result.now ≡ self.now }
    {
        self.items.as_slice()
    }
}
