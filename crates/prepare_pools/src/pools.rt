//! The pools of a site: its unfinished transactions, found by id, by key and by site.
ghost use Rattle.std.specs.Prelude.{◌≡◌, ℕ, List, [], ◌∷◌, ◌++◌, false, not, length, filter, find, map, IfOk, OnOk, OnErr};
ghost use Rattle.std.specs.List.{list_any};
ghost use Rattle.std.specs.Option.{option_copied, option_map};
ghost use Rattle.helios_model.specs.Ids.{same_id};
ghost use Rattle.helios_model.specs.Log.{is_own};
ghost use Rattle.helios_model.specs.Transactions.{conflict};
ghost use Rattle.prepare_pools.specs.Touches.{touches_in};

use crate::conflicts::first_conflict;
use crate::gathering::own_conflicts;
use crate::index::Index;
use crate::line::Line;
use crate::touch::Touch;
use helios_model::{Key, Prepare, SiteId, TxnId, TxnIds};
use std::alloc::{AllocError, Global};
use std::marker::Model;

/// Unfinished transactions, in the order in which they arrived. No two have the same id.
#[derive(Drop)]
pub struct Pools {
    line: Line,
    index: Index,
    alloc: Global,
}

impl Model for Pools {
    ghost use Rattle.std.specs.Prelude.{List};
    ghost use Rattle.std.specs.Map.{values_of};
    ghost use Rattle.helios_model.specs.Transactions.{Transaction};
    ghost use Rattle.prepare_pools.specs.Touches.{IsIndexed};

    ghost Value = { List Transaction };

    ghost view = { λ p. values_of p.line };

    ghost invariant = { λ p. IsIndexed (values_of p.line) p.index };
}

impl Pools {
    /// Pools that hold no transaction.
    pub fn new(alloc: Global) -> Result<Pools, AllocError>
        ensures { IfOk result (λ pools. pools ≡ []) }
    {
        Ok(Pools {
            line: Line::new(alloc)?,
            index: Index::new(alloc),
            alloc,
        })
    }

    /// Takes a transaction in behind the others. After want of memory it is dropped, and the pools are as
    /// before.
    pub fn add(&mut self, p: Prepare) -> Result<(), AllocError>
        requires { list_any (λ q. same_id q.id p.id) self.old ≡ false }
        ensures added { OnOk result (self.new ≡ self.old ++ p ∷ []) }
        ensures as_before { OnErr result (self.new ≡ self.old) }
    {
        let id = p.id();
        self.line.add(p)?;
        let added = self.line.find(&id).unwrap();
        match self.index.touch_all(added) {
            Ok(()) => Ok(()),
            Err(refused) => {
                let _ = self.line.remove(&id);
                Err(refused)
            }
        }
    }

    /// Takes the transaction with this id out; None where there is none.
    pub fn remove(&mut self, id: TxnId) -> Option<Prepare>
        ensures found { result ≡ find (λ p. same_id p.id id) self.old }
        ensures removed { self.new ≡ filter (λ p. not (same_id id p.id)) self.old }
    {
        match self.line.remove(&id) {
            Some(p) => {
                self.index.untouch_all(&p);
                Some(p)
            }
            None => None,
        }
    }

    /// Whether a transaction with this id is held.
    pub fn holds(&self, id: TxnId) -> bool
        ensures { result ≡ list_any (λ p. same_id p.id id) self.now }
    {
        self.line.find(&id).is_some()
    }

    /// How many of a site's are held.
    pub fn own_open(&self, site: SiteId) -> u64
        ensures { result ≡ length (filter (is_own site) self.now) }
    {
        self.line.own_open(site)
    }

    /// The first of a site's that are held.
    pub fn first_own(&self, site: SiteId) -> Option<&Prepare>
        ensures { option_copied result ≡ find (is_own site) self.now }
    {
        self.line.first_own(site)
    }

    /// Those that read or write a key, in the order in which they arrived.
    pub fn touching(&self, key: &Key) -> &[Touch]
        ensures { result.now ≡ touches_in self.now key.now }
    {
        self.index.touching(key)
    }

    /// The id of the first that conflicts with a transaction: one of the two writes a key that the other
    /// reads or writes.
    pub fn first_conflict(&self, p: &Prepare) -> Option<TxnId>
        ensures { result ≡ option_map (λ q. q.id) (find (conflict p.now) self.now) }
    {
        self.line.is_line();
        first_conflict(&self.line, &self.index, p)
    }

    /// The ids of a site's that conflict with a transaction, in the order in which they arrived.
    pub fn own_conflicts(&self, site: SiteId, p: &Prepare) -> Result<TxnIds, AllocError>
        ensures { IfOk result (λ ids. ids ≡ map (λ q. q.id) (filter (conflict p.now) (filter (is_own site) self.now))) }
    {
        self.line.is_line();
        let ids = own_conflicts(self.alloc, &self.line, &self.index, site, p)?;
        Ok(TxnIds::new(ids))
    }

    /// The ids of a site's, in the order in which they arrived.
    pub fn own_ids(&self, site: SiteId) -> Result<TxnIds, AllocError>
        ensures { IfOk result (λ ids. ids ≡ map (λ p. p.id) (filter (is_own site) self.now)) }
    {
        Ok(TxnIds::new(self.line.own_ids(self.alloc, site)?))
    }
}
