// Which transactions touch a key.
ghost use Rattle.std.specs.Prelude.{◌≡◌, [], ◌∷◌, ◌++◌, not, filter, OnOk, OnErr};
ghost use Rattle.helios_model.specs.Ids.{same_id};
ghost use Rattle.prepare_pools.specs.declared.touch.Touch.{Touch};

use helios_model::TxnId;
use std::alloc::{AllocError, Global};
use std::marker::Model;

/// An unfinished transaction that reads or writes a key, and whether it writes it.
#[derive(Clone, Copy, Debug)]
pub struct Touch {
    pub id: TxnId,
    pub write: bool,
}

#[derive(Drop)]
pub(crate) struct Touches {
    items: Vec<Touch>,
}

impl Model for Touches {
    ghost use Rattle.std.specs.Prelude.{List};
    ghost use Rattle.prepare_pools.specs.declared.touch.Touch.{Touch};

    ghost Value = { List Touch };

    ghost view = { λ t. t.items.items };
}

impl Touches {
    pub(crate) fn new(alloc: Global) -> Touches
        ensures { result ≡ [] }
    {
        Touches {
            items: Vec::new(alloc),
        }
    }

    pub(crate) fn items(&self) -> &[Touch]
        ensures { result.now ≡ self.now }
    {
        self.items.as_slice()
    }

    pub(crate) fn push(&mut self, touch: Touch) -> Result<(), AllocError>
        ensures pushed { OnOk result (self.new ≡ self.old ++ touch ∷ []) }
        ensures as_before { OnErr result (self.new ≡ self.old) }
    {
        self.items.push(touch)?;
        Ok(())
    }

    // Takes out what a transaction touched.
    pub(crate) fn remove(&mut self, id: &TxnId)
        ensures { self.new ≡ filter (λ t. not (same_id t.id id.now)) self.old }
    {
        let id = *id;
        self.items.retain(|touch| touch.id != id);
    }
}
