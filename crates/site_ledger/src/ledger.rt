//! A log with what is looked up in it, and without the log itself.
ghost use Rattle.std.specs.Prelude.{◌≡◌, ℕ, ◌^◌, ◌<◌, List, [], ◌∷◌, ◌++◌, find, filter, length, map, IfOk, if◌then◌else◌};
ghost use Rattle.std.specs.Option.{option_copied, option_map};
ghost use Rattle.helios_model.specs.Exchange.{clashing, is_unfinished, sent_records};
ghost use Rattle.helios_model.specs.Log.{current, current_value, is_own, prepares, unfinished};
ghost use Rattle.node_limits.specs.Limits.{IsAfter};
ghost use Rattle.helios_model.specs.Node.{status};
ghost use Rattle.helios_model.specs.Transactions.{conflict};
ghost use Rattle.time_table.specs.Table.{time_at};
ghost use Rattle.log_exchange.specs.Kept.{cover_of, needed};
ghost use Rattle.log_exchange.specs.Laws.{NeedSame};
ghost use Rattle.version_store.specs.Store.{version_in};
ghost use Rattle.site_ledger.specs.Ledger.{AreKnown, Base, HasEarlier, HasKnown, HasLog, IsFirst, IsLedgerOf, IsSameSite, StandsOn, TimesRise, empty_base, holds_id, log_in};

use crate::endings::{keep_commit, keep_end};
use helios_model::{
    CommitEvent, Commits, Key, Prepare, Record, Records, SiteId, State, Time, Times, TxnId, TxnIds,
    Version,
};
use log_exchange::{ExchangeLog, needed_appends, needed_records_tell_all};
use node_limits::{a_prepare_waits_behind_the_rest, an_end_leaves_the_rest};
use prepare_pools::Pools;
use std::alloc::{AllocError, Global};
use std::collections::BTreeMap;
use std::marker::Model;
use time_table::TimeTable;
use version_store::Store;

/// What a site keeps of its log, and what the log gained since the step began. Want of memory consumes it.
#[derive(Drop)]
pub struct Ledger {
    exchange: ExchangeLog,
    pools: Pools,
    store: Store,
    ended: BTreeMap<u64, State>,
    added: Vec<Record>,
    commits: Vec<CommitEvent>,
    alloc: Global,
}

impl Model for Ledger {
    ghost use Rattle.std.specs.Ordering.{nat_cmp};
    ghost use Rattle.std.specs.BTreeMap.{IsOrdered};
    ghost use Rattle.site_ledger.specs.Ledger.{HasLog, LedgerData, ledger_data};

    ghost Value = { LedgerData };

    ghost view = { λ l. ledger_data l.exchange l.pools l.store l.ended.entries l.added.items l.commits.items };

    ghost invariant = { λ l. IsOrdered nat_cmp l.ended × HasLog (ledger_data l.exchange l.pools l.store l.ended.entries l.added.items l.commits.items) };
}

impl Ledger {
    /// The ledger of a site that has heard and done nothing, of so many sites.
    pub fn new(alloc: Global, count: u8, site: SiteId) -> Result<Ledger, AllocError>
        requires { site < count }
        ensures first { IfOk result (λ l. IsFirst count site l) }
        ensures stands { IfOk result (λ l. IsLedgerOf empty_base l) }
    {
        let exchange = ExchangeLog::new(alloc, count, site)?;
        let pools = Pools::new(alloc)?;
        let store = Store::new(alloc)?;
        let ledger = Ledger {
            exchange,
            pools,
            store,
            ended: BTreeMap::new(alloc),
            added: Vec::new(alloc),
            commits: Vec::new(alloc),
            alloc,
        };
        Ok(ledger)
    }

    /// The site whose log it is.
    pub fn site(&self) -> SiteId
        ensures value { result ≡ self.now.site }
        ensures here { result < self.now.count }
    {
        self.exchange.site()
    }

    /// Whether a transaction of this name is unfinished.
    pub fn holds(&self, id: &TxnId) -> bool
        ensures value { result ≡ holds_id self.now.pools id.now }
        ensures stands { (b : Base) → IsLedgerOf b self.now → result ≡ is_unfinished (log_in b self.now) id.now }
    {
        self.pools.holds(*id)
    }

    /// Some log is there for which the ledger stands.
    pub(crate) fn has_log(&self)
        ensures { HasLog self.now }
    {
        let _ = &self.exchange;
    }

    /// The current version and value of a key.
    pub fn current(&self, key: &Key) -> (Version, &[u8])
        ensures stored { result.0 ≡ version_in self.now.store key.now }
        ensures version { (b : Base) → IsLedgerOf b self.now → result.0 ≡ current (log_in b self.now) key.now }
        ensures value { (b : Base) → IsLedgerOf b self.now → result.1.now ≡ current_value (log_in b self.now) key.now }
    {
        self.store.current(key)
    }

    /// What is known of a transaction; Unknown where its name is not of a transaction of this site.
    pub fn status(&self, id: &TxnId) -> State
        ensures { (b : Base) (table : List ℕ) → IsLedgerOf b self.now → result ≡ status (record { site = self.now.site; log = log_in b self.now; table = table }) id.now }
    {
        if id.site != self.exchange.site() {
            return State::Unknown;
        }
        if self.pools.holds(*id) {
            return State::Pending;
        }
        match self.ended.get(&id.time.half_micros()) {
            Some(end) => *end,
            None => State::Unknown,
        }
    }

    /// The name of the first unfinished transaction that conflicts.
    pub fn first_conflict(&self, p: &Prepare) -> Option<TxnId>
        ensures { (b : Base) → IsLedgerOf b self.now → result ≡ option_map (λ q. q.id) (find (conflict p.now) (unfinished (log_in b self.now))) }
    {
        self.pools.first_conflict(p)
    }

    /// How many own transactions are unfinished.
    pub fn own_open(&self) -> u64
        ensures { (b : Base) → IsLedgerOf b self.now → result ≡ length (filter (is_own self.now.site) (unfinished (log_in b self.now))) }
    {
        self.pools.own_open(self.exchange.site())
    }

    /// The first own unfinished transaction.
    pub fn first_own(&self) -> Option<&Prepare>
        ensures first { option_copied result ≡ find (is_own self.now.site) self.now.pools }
        ensures stands { (b : Base) → IsLedgerOf b self.now → option_copied result ≡ find (is_own self.now.site) (unfinished (log_in b self.now)) }
        ensures rise { (b : Base) → IsLedgerOf b self.now → TimesRise (prepares (log_in b self.now)) }
    {
        self.pools.first_own(self.exchange.site())
    }

    /// How many records the log gained since the step began.
    pub fn gained(&self) -> u64
        ensures value { result ≡ length self.now.added }
        ensures few { result < 2 ^ 60 }
    {
        self.added.as_slice().len() as u64
    }

    /// The names of the own unfinished transactions that conflict with an arriving one, in log order.
    pub(crate) fn own_conflicts(&self, p: &Prepare) -> Result<TxnIds, AllocError>
        ensures here { self.now.site < self.now.count }
        ensures ids { IfOk result (λ ids. (b : Base) → IsLedgerOf b self.now → ids ≡ clashing self.now.site (log_in b self.now) p.now) }
    {
        self.pools.own_conflicts(self.exchange.site(), p)
    }

    /// Appends a Prepare, which was made after all that the log has of its origin.
    pub fn append_prepare(mut self, p: Prepare) -> Result<Ledger, AllocError>
        requires origin { p.id.site < self.count }
        requires after { HasEarlier self (Record.Prepare p) }
        ensures added { IfOk result (λ l. l.added ≡ self.added ++ Record.Prepare p ∷ []) }
        ensures stands { IfOk result (λ l. (b : Base) → IsLedgerOf b self → IsAfter (log_in b self) (Record.Prepare p) → IsLedgerOf b l) }
        ensures site { IfOk result (λ l. IsSameSite self l) }
    {
        a_prepare_waits_behind_the_rest();
        let held = p.copy()?;
        let told = p.copy()?;
        self.pools.add(held)?;
        self.exchange.append(Record::Prepare(told))?;
        self.added.push(Record::Prepare(p))?;
        Ok(self)
    }

    /// Appends the Commit of an unfinished transaction; without one the log stays as it is.
    pub fn append_commit(mut self, id: &TxnId, time: Time) -> Result<Ledger, AllocError>
        requires origin { id.now.site < self.count }
        ensures added { IfOk result (λ l. l.added ≡ (if holds_id self.pools id.now then self.added ++ Record.Commit id.now time ∷ [] else self.added)) }
        ensures stands { IfOk result (λ l. StandsOn self l) }
        ensures site { IfOk result (λ l. IsSameSite self l) }
    {
        an_end_leaves_the_rest();
        let own = self.exchange.site();
        match self.pools.remove(*id) {
            Some(p) => {
                self.store.apply(*id, p.writes())?;
                self.exchange.append(Record::Commit { id: *id, time })?;
                self.added.push(Record::Commit { id: *id, time })?;
                keep_end(&mut self.ended, own, id, State::Committed)?;
                keep_commit(&mut self.commits, own, p, time)?;
                Ok(self)
            }
            None => Ok(self),
        }
    }

    /// Appends an Abort of a transaction that the log has a Prepare of.
    pub(crate) fn append_abort(
        mut self,
        id: &TxnId,
        time: Time,
        cause: &TxnId,
    ) -> Result<Ledger, AllocError>
        requires origin { id.now.site < self.count }
        requires known { HasKnown self (id.now ∷ []) }
        ensures added { IfOk result (λ l. l.added ≡ self.added ++ Record.Abort id.now time cause.now ∷ []) }
        ensures stands { IfOk result (λ l. (b : Base) → IsLedgerOf b self → AreKnown (log_in b self) (id.now ∷ []) → IsLedgerOf b l) }
        ensures site { IfOk result (λ l. IsSameSite self l) }
    {
        an_end_leaves_the_rest();
        let own = self.exchange.site();
        let _ = self.pools.remove(*id);
        self.exchange.append(Record::Abort {
            id: *id,
            time,
            cause: *cause,
        })?;
        self.added.push(Record::Abort {
            id: *id,
            time,
            cause: *cause,
        })?;
        keep_end(&mut self.ended, own, id, State::Aborted(*cause))?;
        Ok(self)
    }

    /// What a message to another site tells, by the site's table: the first of the records that the other site is not known
    /// to have, and up to when it tells of each site, in half microseconds. The records that some site needs, by the table,
    /// have to be those of the log.
    pub fn select(&self, to: SiteId, t: &TimeTable) -> Result<(Records, Times), AllocError>
        requires count { t.now.count ≡ self.now.count }
        requires to { to < self.now.count }
        ensures records { IfOk result (λ m. (b : Base) → IsLedgerOf b self.now → NeedSame self.now.count t.now.times b.kept b.log
            → m.0 ≡ sent_records (time_at t.now to) (log_in b self.now)) }
        ensures cover { IfOk result (λ m. (b : Base) → IsLedgerOf b self.now → NeedSame self.now.count t.now.times b.kept b.log
            → m.1 ≡ cover_of self.now.count (time_at t.now self.now.site) (time_at t.now to) (log_in b self.now)) }
    {
        needed_appends();
        needed_records_tell_all();
        let message = self.exchange.select(to, t)?;
        Ok(message)
    }

    /// Ends a step: gives what the log gained and the own Commits among it, both in log order, and drops the records
    /// that no site needs, by the site's table.
    pub fn finish(self, t: &TimeTable) -> (Ledger, Records, Commits)
        requires count { t.now.count ≡ self.count }
        ensures added { result.1 ≡ self.added }
        ensures commits { result.2 ≡ self.commits }
        ensures fresh { (result.0.added ≡ []) × (result.0.commits ≡ []) }
        ensures kept { result.0.kept ≡ needed self.count t.now.times self.kept }
        ensures stands { (b : Base) → IsLedgerOf b self → IsLedgerOf (record { log = log_in b self; kept = result.0.kept }) result.0 }
        ensures site { IsSameSite self result.0 }
    {
        let mut exchange = self.exchange;
        exchange.drop_known(t);
        let ledger = Ledger {
            exchange,
            pools: self.pools,
            store: self.store,
            ended: self.ended,
            added: Vec::new(self.alloc),
            commits: Vec::new(self.alloc),
            alloc: self.alloc,
        };
        (ledger, Records::new(self.added), Commits::new(self.commits))
    }
}
