//! The parts of a site's node, its clock, and the end of a step.
ghost use Rattle.std.specs.Prelude.{◌≡◌, ◌<◌, ◌≤◌, IfOk, [], nat_le};
ghost use Rattle.helios_model.specs.Limits.{spent_time};
ghost use Rattle.helios_model.specs.Node.{empty_node};
ghost use Rattle.helios_model.specs.Plans.{count_of};
ghost use Rattle.helios_model.specs.Request.{entered};
ghost use Rattle.log_exchange.specs.Kept.{needed};
ghost use Rattle.node_limits.specs.Limits.{IsAfter};
ghost use Rattle.site_ledger.specs.Ledger.{Base, HasEarlier, empty_base, log_in};
ghost use Rattle.site_node.specs.Node.{BecomesAt, IsNodeOf, IsSamePlace, clock_in, node_in};

use helios_model::{Commits, Plan, Prepare, Record, Records, SPENT_TIME, SiteId, Time};
use log_exchange::{fewer_are_needed, needed_appends, needed_records_tell_all};
use site_ledger::Ledger;
use std::alloc::{AllocError, Global};
use std::marker::Model;
use time_table::TimeTable;

/// A site's node: its plan, its table of times, and its ledger. Want of memory consumes it.
#[derive(Drop)]
pub struct SiteNode {
    pub(crate) plan: Plan,
    pub(crate) site: SiteId,
    pub(crate) table: TimeTable,
    pub(crate) ledger: Ledger,
    pub(crate) alloc: Global,
}

impl Model for SiteNode {
    ghost use Rattle.std.specs.Prelude.{◌≡◌, ◌<◌};
    ghost use Rattle.helios_model.specs.Plans.{count_of};
    ghost use Rattle.site_node.specs.Node.{SiteData};

    ghost Value = { SiteData };

    ghost view = { λ p. record { plan = p.plan; table = p.table.times; ledger = p.ledger } };

    ghost invariant = { λ p. (p.site < count_of p.plan) × (p.table.count ≡ count_of p.plan) × (p.ledger.count ≡ count_of p.plan) × (p.ledger.site ≡ p.site) };
}

impl SiteNode {
    /// The node of a site that has heard and done nothing.
    pub fn new(alloc: Global, plan: Plan, site: SiteId) -> Result<SiteNode, AllocError>
        requires { site < count_of plan }
        ensures first { IfOk result (λ s. (s.plan ≡ plan) × (s.ledger.site ≡ site) × (s.ledger.kept ≡ []) × (s.ledger.added ≡ []) × (s.ledger.commits ≡ [])) }
        ensures node { IfOk result (λ s. node_in empty_base s ≡ empty_node plan site) }
        ensures stands { IfOk result (λ s. IsNodeOf empty_base s) }
    {
        let count = plan.count();
        let table = TimeTable::new(alloc, count)?;
        let ledger = Ledger::new(alloc, count, site)?;
        let node = SiteNode {
            plan,
            site,
            table,
            ledger,
            alloc,
        };
        Ok(node)
    }

    /// What the site keeps of its log.
    pub fn ledger(&self) -> &Ledger
        ensures { result.now ≡ self.now.ledger }
    {
        &self.ledger
    }

    /// Where the node takes its memory.
    pub fn alloc(&self) -> Global {
        self.alloc
    }

    /// The site whose node it is.
    pub fn site(&self) -> SiteId
        ensures value { result ≡ self.now.ledger.site }
        ensures here { result < count_of self.now.plan }
    {
        self.site
    }

    /// The node's own time, in half microseconds.
    pub fn clock(&self) -> u64
        ensures { result ≡ clock_in self.now }
    {
        self.table.get(self.site, self.site).half_micros()
    }

    /// Whether the site's clock has come to its end.
    pub fn is_spent(&self) -> bool
        ensures { result ≡ nat_le spent_time (clock_in self.now) }
    {
        self.clock() >= SPENT_TIME
    }

    /// Appends a transaction of its own, made after all that the log has of the site; its time becomes the node's.
    pub fn enter(self, p: Prepare) -> Result<SiteNode, AllocError>
        requires own { p.id.site ≡ self.ledger.site }
        requires after { HasEarlier self.ledger (Record.Prepare p) }
        requires later { clock_in self ≤ p.id.time }
        ensures node { IfOk result (λ s. (b : Base) → IsNodeOf b self → IsAfter (log_in b self.ledger) (Record.Prepare p) → BecomesAt b self s (λ n. entered self.plan n p)) }
        ensures place { IfOk result (λ s. IsSamePlace self s) }
        ensures clock { IfOk result (λ s. clock_in s ≡ p.id.time) }
    {
        fewer_are_needed();
        prove!(p.id().site == self.site());
        let time = p.id().time;
        let SiteNode {
            plan,
            site,
            mut table,
            ledger,
            alloc,
        } = self;
        let ledger = ledger.append_prepare(p)?;
        table.raise(site, site, time);
        let node = SiteNode {
            plan,
            site,
            table,
            ledger,
            alloc,
        };
        Ok(node)
    }

    /// Ends a step: gives what the log gained and the own Commits among it, both in log order, and drops the records
    /// that no site needs.
    pub fn finish(self) -> (SiteNode, Records, Commits)
        ensures added { result.1 ≡ self.ledger.added }
        ensures commits { result.2 ≡ self.ledger.commits }
        ensures fresh { (result.0.ledger.added ≡ []) × (result.0.ledger.commits ≡ []) }
        ensures kept { result.0.ledger.kept ≡ needed (count_of self.plan) self.table self.ledger.kept }
        ensures stands { (b : Base) → IsNodeOf b self → IsNodeOf (record { log = log_in b self.ledger; kept = result.0.ledger.kept }) result.0 }
        ensures table { result.0.table ≡ self.table }
        ensures place { IsSamePlace self result.0 }
    {
        needed_records_tell_all();
        needed_appends();
        let SiteNode {
            plan,
            site,
            table,
            ledger,
            alloc,
        } = self;
        let (ledger, added, commits) = ledger.finish(&table);
        let node = SiteNode {
            plan,
            site,
            table,
            ledger,
            alloc,
        };
        (node, added, commits)
    }
}
