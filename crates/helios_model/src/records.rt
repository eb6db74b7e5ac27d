//! The records of a site's log, and commit events.
ghost use Rattle.std.specs.Prelude.{◌≡◌, ℕ, List, IfOk};
ghost use Rattle.helios_model.specs.declared.records.Record.{Record};
ghost use Rattle.helios_model.specs.declared.records.CommitEvent.{CommitEvent};
ghost use Rattle.helios_model.specs.Log.{id_of, origin, own_time};

use crate::ids::{SiteId, Time, TxnId};
use crate::transactions::Prepare;
use std::alloc::{AllocError, Global};
use std::marker::Model;

/// One record of a site's log.
#[derive(Clone, Debug, Drop)]
pub enum Record {
    /// A site took this transaction.
    Prepare(Prepare),
    /// The site of this transaction committed it, at this time.
    Commit { id: TxnId, time: Time },
    /// The site of this transaction aborted it, at this time, since it conflicts with the cause.
    Abort { id: TxnId, time: Time, cause: TxnId },
}

impl Record {
    /// The name of the record's transaction.
    pub fn id(&self) -> TxnId
        ensures { result ≡ id_of self.now }
    {
        match self {
            Record::Prepare(p) => p.id(),
            Record::Commit { id, .. } => *id,
            Record::Abort { id, .. } => *id,
        }
    }

    /// The site that made the record.
    pub fn origin(&self) -> SiteId
        ensures { result ≡ origin self.now }
    {
        self.id().site
    }

    /// When its origin made the record, in half microseconds.
    pub fn own_time(&self) -> Time
        ensures { result ≡ own_time self.now }
    {
        match self {
            Record::Prepare(p) => p.id().time,
            Record::Commit { time, .. } => *time,
            Record::Abort { time, .. } => *time,
        }
    }

    pub fn copy(&self) -> Result<Record, AllocError>
        ensures { IfOk result (λ copied. copied ≡ self.now) }
    {
        self.clone()
    }
}

/// Records of a log, in its order.
#[derive(Clone, Debug, Drop)]
pub struct Records {
    items: Vec<Record>,
}

impl Model for Records {
    ghost Value = { List Record };

    ghost view = { λ l. l.items.items };
}

impl Records {
    pub fn new(items: Vec<Record>) -> Records
        ensures { result ≡ items.items }
    {
        Records { items }
    }

    pub fn items(&self) -> &[Record]
        ensures { result.now ≡ self.now }
    {
        self.items.as_slice()
    }

    pub fn into_items(self) -> Vec<Record>
        ensures { result.items ≡ self }
    {
        self.items
    }

    pub fn copy(&self, alloc: Global) -> Result<Records, AllocError>
        ensures { IfOk result (λ copied. copied ≡ self.now) }
    {
        let mut items = Vec::with_capacity(alloc, self.items.len())?;
        for r in self.items.as_slice() {
            items.push(r.copy()?)?;
        }
        Ok(Records { items })
    }
}

/// A transaction that committed, and the time of its Commit.
#[derive(Clone, Debug, Drop)]
pub struct CommitEvent {
    pub prepare: Prepare,
    pub time: Time,
}

/// Transactions that committed, in the order of their commit events.
#[derive(Clone, Debug, Drop)]
pub struct Commits {
    items: Vec<CommitEvent>,
}

impl Model for Commits {
    ghost Value = { List CommitEvent };

    ghost view = { λ l. l.items.items };
}

impl Commits {
    pub fn new(items: Vec<CommitEvent>) -> Commits
        ensures { result ≡ items.items }
    {
        Commits { items }
    }

    pub fn items(&self) -> &[CommitEvent]
        ensures { result.now ≡ self.now }
    {
        self.items.as_slice()
    }

    pub fn into_items(self) -> Vec<CommitEvent>
        ensures { result.items ≡ self }
    {
        self.items
    }
}
