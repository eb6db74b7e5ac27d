// Transactions in the order of their arrival, with the numbers of each site's.
ghost use Rattle.std.specs.Prelude.{◌≡◌, ℕ, [], ◌∷◌, ◌++◌, false, not, length, filter, find, map, IfOk, OnOk, OnErr};
ghost use Rattle.std.specs.List.{list_any};
ghost use Rattle.std.specs.Option.{option_copied, option_map};
ghost use Rattle.std.specs.Ordering.{nat_cmp};
ghost use Rattle.std.specs.BTreeMap.{is_at};
ghost use Rattle.std.specs.Map.{lookup, values_of};
ghost use Rattle.helios_model.specs.declared.ids.TxnId.{TxnId};
ghost use Rattle.helios_model.specs.Ids.{same_id};
ghost use Rattle.helios_model.specs.Log.{is_own};
ghost use Rattle.prepare_pools.specs.Line.{IsLine, arrival_of};

use crate::site::Arrived;
use helios_model::{Prepare, SiteId, Time, TxnId};
use std::alloc::{AllocError, Global};
use std::collections::BTreeMap;
use std::marker::Model;

#[derive(Drop)]
pub(crate) struct Line {
    held: BTreeMap<u64, Prepare>,
    sites: Vec<Arrived>,
    next: u64,
}

impl Model for Line {
    ghost use Rattle.std.specs.Prelude.{List, ℕ};
    ghost use Rattle.helios_model.specs.Transactions.{Transaction};
    ghost use Rattle.prepare_pools.specs.Waiting.{IsWaiting};

    ghost Value = { List (ℕ × Transaction) };

    ghost view = { λ l. l.held.entries };

    ghost invariant = { λ l. IsWaiting l.held.entries l.sites.items l.next };
}

impl Line {
    pub(crate) fn new(alloc: Global) -> Result<Line, AllocError>
        ensures { IfOk result (λ line. line ≡ []) }
    {
        let mut sites = Vec::new(alloc);
        for _ in 0..32u8 {
            sites.push(Arrived::new(alloc))?;
        }
        Ok(Line {
            held: BTreeMap::new(alloc),
            sites,
            next: 0,
        })
    }

    // The number of the transaction with this id.
    pub(crate) fn arrival(&self, id: &TxnId) -> Option<u64>
        ensures { result ≡ arrival_of (λ p. same_id p.id id.now) self.now }
    {
        self.sites[id.site.number() as usize].arrival(id.time.half_micros())
    }

    // Takes a transaction in behind the others.
    pub(crate) fn add(&mut self, p: Prepare) -> Result<(), AllocError>
        requires { list_any (λ q. same_id q.id p.id) (values_of self.old) ≡ false }
        ensures added { OnOk result (values_of self.new ≡ values_of self.old ++ p ∷ []) }
        ensures as_before { OnErr result (self.new ≡ self.old) }
    {
        let arrival = self.next;
        if arrival == u64::MAX {
            return Err(AllocError);
        }
        let id = p.id();
        let at = id.site.number() as usize;
        let time = id.time.half_micros();
        let site = &mut self.sites[at];
        site.enter(arrival, time)?;
        match self.held.insert(arrival, p) {
            Ok(_) => {
                self.next = arrival + 1;
                Ok(())
            }
            Err(refused) => {
                let site = &mut self.sites[at];
                let _ = site.leave(time);
                Err(refused.into())
            }
        }
    }

    // Takes the transaction with this id out.
    pub(crate) fn remove(&mut self, id: &TxnId) -> Option<Prepare>
        ensures found { result ≡ find (λ p. same_id p.id id.now) (values_of self.old) }
        ensures removed { self.new ≡ filter (λ e. not (same_id e.1.id id.now)) self.old }
        ensures line { IsLine (λ p. p.id) self.old }
    {
        let site = &mut self.sites[id.site.number() as usize];
        match site.leave(id.time.half_micros()) {
            Some(arrival) => self.held.remove(&arrival),
            None => None,
        }
    }

    // How many a site has.
    pub(crate) fn own_open(&self, site: SiteId) -> u64
        ensures { result ≡ length (filter (is_own site) (values_of self.now)) }
    {
        self.sites[site.number() as usize].times().len() as u64
    }

    // The transaction with this id.
    pub(crate) fn find(&self, id: &TxnId) -> Option<&Prepare>
        ensures { option_copied result ≡ find (λ p. same_id p.id id.now) (values_of self.now) }
    {
        match self.arrival(id) {
            Some(arrival) => self.held.get(&arrival),
            None => None,
        }
    }

    // The first of a site's.
    pub(crate) fn first_own(&self, site: SiteId) -> Option<&Prepare>
        ensures { option_copied result ≡ find (is_own site) (values_of self.now) }
    {
        match self.sites[site.number() as usize].times().first_key_value() {
            Some((arrival, _)) => self.held.get(arrival),
            None => None,
        }
    }

    // The ids of a site's.
    pub(crate) fn own_ids(&self, alloc: Global, site: SiteId) -> Result<Vec<TxnId>, AllocError>
        ensures { IfOk result (λ ids. ids.items ≡ map (λ p. p.id) (filter (is_own site) (values_of self.now))) }
    {
        let mut ids = Vec::new(alloc);
        for time in self.sites[site.number() as usize].times().values() {
            ids.push(TxnId {
                site,
                time: Time::of(*time),
            })?;
        }
        Ok(ids)
    }

    // The id of the transaction with this number.
    pub(crate) fn id_at(&self, arrival: u64) -> Option<TxnId>
        ensures { result ≡ option_map (λ p. p.id) (lookup (is_at (nat_cmp arrival)) self.now) }
    {
        match self.held.get(&arrival) {
            Some(p) => Some(p.id()),
            None => None,
        }
    }

    // The numbers rise, and no two have the same id.
    pub(crate) fn is_line(&self)
        ensures { IsLine (λ p. p.id) self.now }
    {
        let _ = &self.held;
    }
}
