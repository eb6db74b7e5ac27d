//! What a node is asked, and what it answers.
ghost use Rattle.std.specs.Prelude.{◌≡◌, ℕ, List};
ghost use Rattle.helios_model.specs.declared.entries.Entry.{Entry};
ghost use Rattle.helios_model.specs.declared.entries.Reply.{Reply};

use crate::ids::{SiteId, TxnId, Version};
use crate::keys::{Key, Val};
use crate::messages::Message;
use crate::transactions::Ask;
use std::marker::Model;

/// What a node is asked.
#[derive(Clone, Debug, Drop)]
pub enum Input {
    /// For the current version and value of a key.
    Get(Key),
    /// For what is known of a transaction at its site.
    Status(TxnId),
    /// To take a transaction.
    Request(Ask),
    /// For a message to another site.
    Pull(SiteId),
    /// To take a message of another site in.
    Push(Message),
}

/// An input, and the reading of the site's clock that it is answered at, in half microseconds.
#[derive(Clone, Debug, Drop)]
pub struct Entry {
    pub reading: u64,
    pub input: Input,
}

/// The inputs of a batch with the clock's readings, in their order.
#[derive(Clone, Debug, Drop)]
pub struct Entries {
    items: Vec<Entry>,
}

impl Model for Entries {
    ghost Value = { List Entry };

    ghost view = { λ l. l.items.items };
}

impl Entries {
    pub fn new(items: Vec<Entry>) -> Entries
        ensures { result ≡ items.items }
    {
        Entries { items }
    }

    pub fn items(&self) -> &[Entry]
        ensures { result.now ≡ self.now }
    {
        self.items.as_slice()
    }

    pub fn into_items(self) -> Vec<Entry>
        ensures { result.items ≡ self }
    {
        self.items
    }
}

/// What is known of a transaction at its site.
#[derive(Clone, Copy, Debug, PartialEq, Eq)]
pub enum State {
    Pending,
    Committed,
    /// It was aborted, since it conflicts with this transaction.
    Aborted(TxnId),
    Unknown,
}

/// A node's answer to an input.
#[derive(Clone, Debug, Drop)]
pub enum Reply {
    /// The transaction was taken under this name, and is not decided yet.
    Prepared(TxnId),
    /// The transaction was taken under this name, and is committed.
    Committed(TxnId),
    /// The first read whose version is not the current one.
    Overwritten { key: Key, current: Version },
    /// The first unfinished transaction that conflicts.
    Conflict(TxnId),
    /// The current version and value of a key.
    Value { version: Version, value: Val },
    /// What is known of a transaction.
    State(State),
    /// The message to the other site.
    Sent(Message),
    /// The message was taken in.
    Taken,
    /// The site's clock has come to its end; nothing changed.
    ClockSpent,
    /// The site has as many unfinished transactions as it may have; nothing changed.
    PoolFull,
}

/// The answers to the inputs of a batch, in their order.
#[derive(Clone, Debug, Drop)]
pub struct Replies {
    items: Vec<Reply>,
}

impl Model for Replies {
    ghost Value = { List Reply };

    ghost view = { λ l. l.items.items };
}

impl Replies {
    pub fn new(items: Vec<Reply>) -> Replies
        ensures { result ≡ items.items }
    {
        Replies { items }
    }

    pub fn items(&self) -> &[Reply]
        ensures { result.now ≡ self.now }
    {
        self.items.as_slice()
    }

    pub fn into_items(self) -> Vec<Reply>
        ensures { result.items ≡ self }
    {
        self.items
    }
}
