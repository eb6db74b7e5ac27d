//! What the dumps of sites say of the committed transactions.
ghost use Rattle.std.specs.Prelude.{◌≡◌};

use helios_model::Prepare;
use std::marker::Model;

/// Transactions that sites took.
#[derive(Debug, Drop)]
pub struct Prepares {
    items: Vec<Prepare>,
}

impl Model for Prepares {
    ghost use Rattle.std.specs.Prelude.{List};
    ghost use Rattle.helios_model.specs.Transactions.{Transaction};

    ghost Value = { List Transaction };

    ghost view = { λ l. l.items.items };
}

impl Prepares {
    pub fn new(items: Vec<Prepare>) -> Prepares
        ensures { result ≡ items.items }
    {
        Prepares { items }
    }

    pub fn items(&self) -> &[Prepare]
        ensures { result.now ≡ self.now }
    {
        self.items.as_slice()
    }
}

/// What the dumps of sites say.
#[derive(Debug, Drop)]
pub struct Dumps {
    /// The Prepare of each committed id, in order of id by site and then time.
    pub committed: Prepares,
}
