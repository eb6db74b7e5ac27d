//! Committed transactions as a history names them.
ghost use Rattle.std.specs.Prelude.{◌≡◌, List};
ghost use Rattle.history_audit.specs.declared.history.Item.{Item};

use helios_model::{Keys, Reads, TxnId};
use std::marker::Model;

/// A committed transaction: the versions that it read, and the keys that it wrote.
#[derive(Debug, Drop)]
pub struct Item {
    pub id: TxnId,
    pub reads: Reads,
    pub writes: Keys,
}

/// Committed transactions, in the order of their commits.
#[derive(Debug, Drop)]
pub struct History {
    items: Vec<Item>,
}

impl Model for History {
    ghost Value = { List Item };

    ghost view = { λ h. h.items.items };
}

impl History {
    pub fn new(items: Vec<Item>) -> History
        ensures { result ≡ items.items }
    {
        History { items }
    }

    pub fn items(&self) -> &[Item]
        ensures { result.now ≡ self.now }
    {
        self.items.as_slice()
    }
}
