//! The store of a site: which transaction wrote each key last, and its value.
ghost use Rattle.std.specs.Prelude.{◌≡◌, ℕ, List, [], IfOk, OnOk, OnErr, map, find, if◌then◌else◌};
ghost use Rattle.helios_model.specs.Texts.{contains_text, same_text};
ghost use Rattle.helios_model.specs.Log.{write_over};
ghost use Rattle.helios_model.specs.declared.ids.Version.TheVariants.{Of};
ghost use Rattle.version_store.specs.Store.{value_in, version_in};

use crate::held::Held;
use crate::places::write_all;
use helios_model::{Key, TxnId, Version, Writes};
use std::alloc::{AllocError, Global};
use std::collections::BTreeMap;
use std::marker::Model;

/// The version and the value of each key: Initial and the empty value, until a transaction writes it.
#[derive(Drop)]
pub struct Store {
    places: BTreeMap<Key, Held>,
    alloc: Global,
}

impl Model for Store {
    ghost use Rattle.std.specs.Prelude.{List, ℕ};
    ghost use Rattle.version_store.specs.declared.held.Held.{Held};

    ghost Value = { List (List ℕ × Held) };

    ghost view = { λ s. s.places.entries };
}

impl Store {
    /// A store in which no key is written.
    pub fn new(alloc: Global) -> Result<Store, AllocError>
        ensures { IfOk result (λ store. store ≡ []) }
    {
        Ok(Store {
            places: BTreeMap::new(alloc),
            alloc,
        })
    }

    /// The version of a key, and its value.
    pub fn current(&self, key: &Key) -> (Version, &[u8])
        ensures version { result.0 ≡ version_in self.now key.now }
        ensures value { result.1.now ≡ value_in self.now key.now }
    {
        match self.places.get(key) {
            Some(held) => (Version::Of(held.id), held.value.items()),
            None => (Version::Initial, &[]),
        }
    }

    /// Makes a transaction the current version of the keys that it writes, with their values. Of several
    /// writes of a key the first counts. After want of memory the store is as before.
    pub fn apply(&mut self, id: TxnId, writes: &Writes) -> Result<(), AllocError>
        ensures versions { OnOk result ((key : List ℕ) → version_in self.new key ≡ (if contains_text (map (λ w. w.key) writes.now) key then Of id else version_in self.old key)) }
        ensures values { OnOk result ((key : List ℕ) → value_in self.new key ≡ write_over (value_in self.old key) (find (λ w. same_text w.key key) writes.now)) }
        ensures as_before { OnErr result (self.new ≡ self.old) }
    {
        write_all(&mut self.places, self.alloc, &id, writes.items())
    }
}
