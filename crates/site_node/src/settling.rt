//! What commits: own unfinished transactions, from the first on.
ghost use Rattle.std.specs.Prelude.{◌≡◌, ◌^◌, ◌<◌, ◌≤◌, [], IfOk, MatchOption, true};
ghost use Rattle.helios_model.specs.Plans.{count_of};
ghost use Rattle.helios_model.specs.Request.{entered};
ghost use Rattle.helios_model.specs.Settle.{commit_one, ready, settle};
ghost use Rattle.node_limits.specs.Limits.{IsAfter};
ghost use Rattle.site_ledger.specs.Ledger.{Base, holds_id, log_in};
ghost use Rattle.site_node.specs.Node.{Becomes, BecomesAt, HasNodeWithin, IsBounded, IsNodeOf, IsSamePlace, clock_in, node_in};
ghost use Rattle.site_node.specs.Settling.{CommitsFirst, is_heard_in, is_reached_in};

use crate::node::SiteNode;
use helios_model::{Prepare, Record, SiteId, Time, TxnId};
use log_exchange::fewer_are_needed;
use node_limits::{
    a_clock_leaves_other_times, a_new_one_alone_may_commit, an_end_leaves_the_other_own,
    own_records_come_after,
};
use std::alloc::AllocError;

impl SiteNode {
    /// Whether the site has heard of another one past the offset of an own transaction at this time, in half microseconds.
    /// Of itself it has.
    pub fn is_heard(&self, j: SiteId, time: u64) -> bool
        requires { j < count_of self.now.plan }
        ensures { result ≡ is_heard_in self.now time j }
    {
        if j == self.site {
            return true;
        }
        let heard = self.table.get(self.site, j).half_micros();
        let latency = self.plan.latency(self.site);
        let trip = self.plan.rtt(self.site, j);
        u128::from(time) + u128::from(latency) <= u128::from(heard) + u128::from(trip)
    }

    /// Whether the site has heard so far of every other one.
    pub fn is_reached(&self, time: u64) -> bool
        ensures { result ≡ is_reached_in self.now time }
    {
        (0..self.plan.count()).all(|j| self.is_heard(SiteId::of(j), time))
    }

    /// The first own unfinished transaction, where it commits now. Where it does not, no later one does.
    fn next_commit(&self) -> Option<TxnId>
        ensures { MatchOption result ((b : Base) → IsNodeOf b self.now → ready self.now.plan (node_in b self.now) ≡ []) (λ id. CommitsFirst self.now id) }
    {
        an_end_leaves_the_other_own();
        a_clock_leaves_other_times();
        match self.ledger.first_own() {
            Some(p) => {
                let id = p.id();
                if self.is_reached(id.time.half_micros()) {
                    Some(id)
                } else {
                    None
                }
            }
            None => None,
        }
    }

    /// Commits an own unfinished transaction at the next time.
    fn commit(self, id: &TxnId) -> Result<SiteNode, AllocError>
        requires bounded { IsBounded self }
        requires own { id.now.site ≡ self.ledger.site }
        requires held { holds_id self.ledger.pools id.now ≡ true }
        ensures node { IfOk result (λ s. Becomes self s (λ n. commit_one self.plan n id.now)) }
        ensures place { IfOk result (λ s. IsSamePlace self s) }
        ensures bounded { IfOk result (λ s. IsBounded s) }
    {
        fewer_are_needed();
        prove!(self.ledger.gained() < 1 << 60);
        let time = self.clock() + 1;
        let SiteNode {
            plan,
            site,
            mut table,
            ledger,
            alloc,
        } = self;
        let ledger = ledger.append_commit(id, Time::of(time))?;
        table.raise(site, site, Time::of(time));
        let node = SiteNode {
            plan,
            site,
            table,
            ledger,
            alloc,
        };
        Ok(node)
    }

    /// Commits what can commit: own unfinished transactions, from the first on.
    pub fn settle(self) -> Result<SiteNode, AllocError>
        requires { IsBounded self }
        ensures node { IfOk result (λ s. Becomes self s (settle self.plan)) }
        ensures place { IfOk result (λ s. IsSamePlace self s) }
    {
        let mut node = self;
        for _ in 0..node.ledger.own_open() {
            match node.next_commit() {
                Some(id) => node = node.commit(&id)?,
                None => return Ok(node),
            }
        }
        Ok(node)
    }

    /// Appends a transaction of its own and commits what can commit: of a node within the limits this is the new one or none.
    pub fn accept(self, p: Prepare) -> Result<SiteNode, AllocError>
        requires own { p.id.site ≡ self.ledger.site }
        requires within { HasNodeWithin self }
        requires later { clock_in self < p.id.time }
        requires small { p.id.time ≤ 2 ^ 62 }
        ensures node { IfOk result (λ s. (b : Base) → IsNodeOf b self → IsAfter (log_in b self.ledger) (Record.Prepare p) → BecomesAt b self s (λ n. settle self.plan (entered self.plan n p))) }
        ensures place { IfOk result (λ s. IsSamePlace self s) }
    {
        a_new_one_alone_may_commit();
        own_records_come_after();
        let id = p.id();
        let commits = self.is_reached(id.time.half_micros());
        let entered = self.enter(p)?;
        if commits {
            let settled = entered.commit(&id)?;
            return Ok(settled);
        }
        Ok(entered)
    }
}
