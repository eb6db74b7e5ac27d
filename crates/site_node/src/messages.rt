//! What a node sends to another site, and how it takes a message in.
ghost use Rattle.std.specs.Prelude.{◌≡◌, ◌*◌, ◌^◌, ◌<◌, ◌≤◌, All, IfOk, length};
ghost use Rattle.helios_model.specs.Exchange.{merged};
ghost use Rattle.helios_model.specs.Messages.{advanced, message_to, push, with_records};
ghost use Rattle.helios_model.specs.Plans.{count_of};
ghost use Rattle.helios_model.specs.Spellable.{IsMessageOf, OwnTimesRiseByOrigin};
ghost use Rattle.log_exchange.specs.Kept.{AreOf};
ghost use Rattle.node_limits.specs.Limits.{IsSoundNode, MayTake};
ghost use Rattle.site_ledger.specs.Ledger.{Base, HasTakeable, log_in};
ghost use Rattle.site_node.specs.Node.{Becomes, BecomesAt, HasSoundNode, IsBounded, IsNodeOf, IsSamePlace, clock_in, node_in, row_in};

use crate::node::SiteNode;
use helios_model::{LAST_READING, Message, Records, SiteId, Time, Times};
use log_exchange::fewer_are_needed;
use node_limits::arriving_records_may_be_taken;
use site_ledger::Taking;
use std::alloc::AllocError;

impl SiteNode {
    /// Brings the clock at least to a reading, in half microseconds.
    pub fn advance(&mut self, reading: u64)
        ensures node { Becomes self.old self.new (λ n. advanced self.old.plan n reading) }
        ensures place { IsSamePlace self.old self.new }
        ensures ledger { self.new.ledger ≡ self.old.ledger }
        ensures small { clock_in self.old ≤ 2 ^ 62 → clock_in self.new ≤ 2 ^ 62 }
    {
        fewer_are_needed();
        let time = self.clock().max(reading.min(LAST_READING));
        self.table.raise(self.site, self.site, Time::of(time));
    }

    fn message_to(&self, to: SiteId) -> Result<Message, AllocError>
        requires { to < count_of self.now.plan }
        ensures { IfOk result (λ m. (b : Base) → IsNodeOf b self.now → m ≡ message_to self.now.plan (node_in b self.now) to) }
    {
        let (records, cover) = self.ledger.select(to, &self.table)?;
        let message = Message {
            from: self.site,
            to,
            count: self.plan.count(),
            table: self.table.grid().copy()?,
            cover,
            records,
        };
        Ok(message)
    }

    /// Brings the clock at least to a reading, in half microseconds, and gives what the node then sends to another site.
    pub fn pull(self, reading: u64, to: SiteId) -> Result<(SiteNode, Message), AllocError>
        requires { to < count_of self.plan }
        ensures node { IfOk result (λ r. Becomes self r.0 (λ n. advanced self.plan n reading)) }
        ensures message { IfOk result (λ r. (b : Base) → IsNodeOf b self → r.1 ≡ message_to self.plan (advanced self.plan (node_in b self) reading) to) }
        ensures place { IfOk result (λ r. IsSamePlace self r.0) }
    {
        let mut node = self;
        node.advance(reading);
        let message = node.message_to(to)?;
        let pulled = (node, message);
        Ok(pulled)
    }

    /// Takes a message's records.
    fn with_records(self, records: Records) -> Result<SiteNode, AllocError>
        requires origins { AreOf (count_of self.plan) records }
        requires rise { OwnTimesRiseByOrigin records }
        requires after { HasTakeable self.ledger.site (row_in self) self.ledger records }
        requires bounded { IsBounded self }
        ensures node { IfOk result (λ s. (b : Base) → IsNodeOf b self → All (MayTake self.ledger.site (row_in self) (log_in b self.ledger)) records → BecomesAt b self s (λ n. with_records self.plan n records)) }
        ensures place { IfOk result (λ s. IsSamePlace self s) }
        ensures bounded { IfOk result (λ s. IsBounded s) }
    {
        fewer_are_needed();
        let clock = self.clock();
        let SiteNode {
            plan,
            site,
            mut table,
            ledger,
            alloc,
        } = self;
        let Taking { ledger, clock } = Taking { ledger, clock }.take_all(&table, records)?;
        table.raise(site, site, Time::of(clock));
        let node = SiteNode {
            plan,
            site,
            table,
            ledger,
            alloc,
        };
        Ok(node)
    }

    /// Takes a message's times.
    fn take_times(&mut self, table: &Times, cover: &Times)
        requires square { length table.now ≡ count_of self.old.plan * count_of self.old.plan }
        requires one_row { length cover.now ≡ count_of self.old.plan }
        ensures node { Becomes self.old self.new (λ n. record { site = n.site; log = n.log; table = merged (count_of self.old.plan) n.site n.table table.now cover.now }) }
        ensures place { IsSamePlace self.old self.new }
        ensures bounded { IsBounded self.old → IsBounded self.new }
    {
        fewer_are_needed();
        let _count = self.table.count();
        self.table.merge(self.site, table, cover);
    }

    /// Takes a message in at a reading of the clock, in half microseconds: its records, then its times, then commits what can
    /// commit.
    pub fn push(self, reading: u64, m: Message) -> Result<SiteNode, AllocError>
        requires clock { clock_in self < 2 ^ 62 }
        requires sound { HasSoundNode self }
        requires message { IsMessageOf (count_of self.plan) m }
        ensures node { IfOk result (λ s. (b : Base) → IsNodeOf b self → IsSoundNode self.plan (node_in b self) → BecomesAt b self s (λ n. (push self.plan n reading m).node)) }
        ensures place { IfOk result (λ s. IsSamePlace self s) }
    {
        arriving_records_may_be_taken();
        let Message {
            table,
            cover,
            records,
            ..
        } = m;
        let mut node = self;
        node.advance(reading);
        let mut arrived = node.with_records(records)?;
        arrived.take_times(&table, &cover);
        let settled = arrived.settle()?;
        Ok(settled)
    }
}
