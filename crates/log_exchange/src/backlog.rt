// The records that are kept, by the numbers of their arrival, with the run of each origin.
ghost use Rattle.std.specs.Prelude.{◌≡◌, ◌+◌, ◌<◌, [], ◌∷◌, ◌++◌, ◌&&◌, true, not, nat_eq, IfOk, OnOk, OnErr, length, drop};
ghost use Rattle.std.specs.List.{AllByRecursion};
ghost use Rattle.std.specs.Map.{values_of};
ghost use Rattle.std.specs.Option.{option_copied};
ghost use Rattle.helios_model.specs.Log.{origin, own_time};
ghost use Rattle.log_exchange.specs.Heads.{IsLine};
ghost use Rattle.log_exchange.specs.Runs.{IsNextDue, IsOfSite, TimesRise, first_stamp, is_first_known, is_known, record_under, run_of, with_all_left, with_left, without_first};

use crate::run::{Run, Stamp};
use helios_model::{MOST_SITES, Record, SiteId, Time};
use std::alloc::{AllocError, Global};
use std::collections::BTreeMap;
use std::marker::Model;
use time_table::TimeTable;

#[derive(Drop)]
pub(crate) struct Backlog {
    count: u8,
    kept: BTreeMap<u64, Record>,
    runs: Vec<Run>,
    next: u64,
}

impl Model for Backlog {
    ghost use Rattle.log_exchange.specs.Runs.{Backlogged, IsBacklog};

    ghost Value = { Backlogged };

    ghost view = { λ b. record { count = b.count; entries = b.kept.entries } };

    ghost invariant = { λ b. IsBacklog b.count b.kept.entries b.runs.items b.next };
}

impl Backlog {
    pub(crate) fn new(alloc: Global, count: u8) -> Result<Backlog, AllocError>
        ensures { IfOk result (λ b. b ≡ record { count = count; entries = [] }) }
    {
        let mut runs = Vec::new(alloc);
        for _ in 0..count {
            runs.push(Run::new(alloc))?;
        }
        Ok(Backlog {
            count,
            kept: BTreeMap::new(alloc),
            runs,
            next: 0,
        })
    }

    // How many records are kept.
    pub(crate) fn len(&self) -> usize
        ensures number { result ≡ length self.now.entries }
        ensures sites { AllByRecursion (IsOfSite self.now.count) self.now.entries }
    {
        let _ = &self.runs;
        self.kept.len()
    }

    pub(crate) fn count(&self) -> u8
        ensures { result ≡ self.now.count }
    {
        self.count
    }

    // The numbers rise, and each record is of one of the sites.
    pub(crate) fn is_line(&self)
        ensures { IsLine self.now }
    {
        let _ = &self.kept;
    }

    // The record under a number.
    pub(crate) fn record(&self, arrival: u64) -> Option<&Record>
        ensures { option_copied result ≡ record_under self.now.entries arrival }
    {
        self.kept.get(&arrival)
    }

    // What stands at a place of an origin's run.
    pub(crate) fn at(&self, k: u8, place: usize) -> Option<Stamp>
        requires { k < self.now.count }
        ensures { result ≡ first_stamp (drop place (run_of k self.now.entries)) }
    {
        self.runs[k as usize].at(place)
    }

    // The place in an origin's run of the first record above a time, or the end.
    pub(crate) fn first_due(&self, k: u8, known: u64) -> usize
        requires { k < self.now.count }
        ensures { IsNextDue known (run_of k self.now.entries) 0 result }
    {
        self.runs[k as usize].first_due(known)
    }

    // The same, behind a place.
    pub(crate) fn due_after(&self, k: u8, place: usize, known: u64) -> usize
        requires origin { k < self.now.count }
        requires there { place < length (run_of k self.now.entries) }
        ensures { IsNextDue known (run_of k self.now.entries) (place + 1) result }
    {
        self.runs[k as usize].due_after(place, known)
    }

    // Takes a record in behind the others.
    pub(crate) fn push(&mut self, r: Record) -> Result<(), AllocError>
        requires { origin r < self.old.count }
        ensures count { OnOk result (self.new.count ≡ self.old.count) }
        ensures pushed { OnOk result (values_of self.new.entries ≡ values_of self.old.entries ++ r ∷ []) }
        ensures as_before { OnErr result (self.new ≡ self.old) }
    {
        let arrival = self.next;
        if arrival == u64::MAX {
            return Err(AllocError);
        }
        let at = r.origin().number() as usize;
        let time = r.own_time().half_micros();
        let run = &mut self.runs[at];
        run.push(arrival, time)?;
        match self.kept.insert(arrival, r) {
            Ok(_) => {
                self.next = arrival + 1;
                Ok(())
            }
            Err(refused) => {
                let run = &mut self.runs[at];
                run.take_back();
                Err(refused.into())
            }
        }
    }

    // Lets each record go that every site is known to have.
    pub(crate) fn drop_known(&mut self, t: &TimeTable)
        requires { t.now.count ≡ self.old.count }
        ensures { self.new ≡ with_all_left self.old t.now.times }
    {
        for k in 0..self.count.min(MOST_SITES) {
            self.drop_run(SiteId::of(k), t);
        }
    }

    // Lets the records of one origin go that every site is known to have.
    fn drop_run(&mut self, k: SiteId, t: &TimeTable)
        requires count { t.now.count ≡ self.old.count }
        requires origin { k < self.old.count }
        ensures { self.new ≡ with_left self.old t.now.times k }
    {
        if self.rises(k) {
            self.drop_front(k, t);
        } else {
            self.drop_scattered(k, t);
        }
    }

    fn rises(&self, k: SiteId) -> bool
        requires { k < self.now.count }
        ensures { result ≡ true → TimesRise (run_of k self.now.entries) }
    {
        self.runs[k.number() as usize].rises()
    }

    // The same, of an origin whose times never fall: it ends at the first that has to stay.
    fn drop_front(&mut self, k: SiteId, t: &TimeTable)
        requires count { t.now.count ≡ self.old.count }
        requires origin { k < self.old.count }
        requires rises { TimesRise (run_of k self.old.entries) }
        ensures { self.new ≡ with_left self.old t.now.times k }
    {
        while self.is_first_known(k, t) {
            self.drop_first(k);
        }
    }

    fn is_first_known(&self, k: SiteId, t: &TimeTable) -> bool
        requires count { t.now.count ≡ self.now.count }
        requires origin { k < self.now.count }
        ensures { result ≡ is_first_known self.now.count t.now.times k (run_of k self.now.entries) }
    {
        match self.runs[k.number() as usize].first() {
            Some(stamp) => t.all_know(k, Time::of(stamp.time)),
            None => false,
        }
    }

    fn drop_first(&mut self, k: SiteId)
        requires { k < self.old.count }
        ensures { self.new ≡ record { count = self.old.count; entries = without_first k self.old.entries } }
    {
        let _ = self.take_first(k);
    }

    // Takes the first record of an origin out.
    fn take_first(&mut self, k: SiteId) -> Option<Record>
        requires { k < self.old.count }
        ensures { self.new ≡ record { count = self.old.count; entries = without_first k self.old.entries } }
    {
        let run = &mut self.runs[k.number() as usize];
        match run.pop() {
            Some(stamp) => self.kept.remove(&stamp.arrival),
            None => None,
        }
    }

    // The same, of an origin whose times may fall.
    fn drop_scattered(&mut self, k: SiteId, t: &TimeTable)
        requires count { t.now.count ≡ self.old.count }
        requires origin { k < self.old.count }
        ensures { self.new ≡ with_left self.old t.now.times k }
    {
        self.kept.retain(|_, r| stays(k, t, r));
        let run = &mut self.runs[k.number() as usize];
        run.drop_known(k, t);
    }
}

// Whether a record stays as those of one origin go that every site is known to have.
fn stays(k: SiteId, t: &TimeTable, r: &Record) -> bool
    requires { k < t.now.count }
    ensures { result ≡ not (nat_eq (origin r.now) k && is_known t.now.count t.now.times k (own_time r.now)) }
{
    r.origin() != k || !t.all_know(k, r.own_time())
}
