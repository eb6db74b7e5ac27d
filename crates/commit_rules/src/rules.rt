//! The core of a site's node.
ghost use Rattle.std.specs.Prelude.{◌≡◌, ◌<◌, IfOk};
ghost use Rattle.helios_model.specs.Plans.{PlanData, count_of};
ghost use Rattle.helios_model.specs.Log.{current, current_value};
ghost use Rattle.helios_model.specs.Node.{Node, empty_node, status};
ghost use Rattle.helios_model.specs.Spellable.{IsSpellableReply, IsSpellableVersion};
ghost use Rattle.helios_model.specs.Step.{MayBeAsked};

use crate::answers::{answer, redo};
use helios_model::{
    Commits, Entry, Key, MOST_SITES, Plan, Records, Reply, SiteId, State, Time, TxnId, Version,
};
use node_limits::{
    a_step_keeps_limits, an_empty_node_is_within_limits, each_current_version_is_spellable,
    each_reply_is_spellable,
};
use site_node::SiteNode;
use std::alloc::{AllocError, Global};
use std::marker::Model;

/// A site's node, which follows the rules step by step.
#[derive(Drop)]
pub struct Core {
    node: SiteNode,
    log_length: u64,
}

impl Model for Core {
    ghost use Rattle.std.specs.Prelude.{◌≡◌, []};
    ghost use Rattle.commit_rules.specs.Core.{CoreState, HasNode, core_of};

    ghost Value = { CoreState };

    ghost view = { λ c. core_of c.node c.log_length };

    ghost invariant = { λ c. HasNode (core_of c.node c.log_length) × (c.node.ledger.added ≡ []) × (c.node.ledger.commits ≡ []) };
}

/// What a step gives: the core after it, the answer, what was appended to the log, and the own Commits among it with
/// their transactions, both in log order.
#[derive(Drop)]
pub struct Outcome {
    pub core: Core,
    pub reply: Reply,
    pub added: Records,
    pub commits: Commits,
}

/// What a step gives whose answer nobody waits for: the core after it, and the own Commits among what was appended to the log,
/// in log order.
#[derive(Drop)]
pub struct Redone {
    pub core: Core,
    pub commits: Commits,
}

/// Where a node has come to: its own time in half microseconds, the length of its log, and how many own transactions
/// are unfinished.
#[derive(Clone, Copy, Debug, PartialEq, Eq)]
pub struct Summary {
    pub time: Time,
    pub log: u64,
    pub pending: u64,
}

impl Core {
    ghost use Rattle.commit_rules.specs.Core.{IsCoreOf};
    ghost use Rattle.commit_rules.specs.Outcome.{IsOutcome, IsRedone, IsSummaryOf};

    /// The core of a site that has heard and done nothing.
    pub fn new(alloc: Global, plan: Plan, site: SiteId) -> Result<Core, AllocError>
        requires { site < count_of plan }
        ensures { IfOk result (λ core. IsCoreOf core plan (empty_node plan site)) }
    {
        an_empty_node_is_within_limits();
        prove!(plan.count() <= MOST_SITES);
        let node = SiteNode::new(alloc, plan, site)?;
        let core = Core {
            node,
            log_length: 0,
        };
        Ok(core)
    }

    /// Answers one input by the rules, at a reading of the site's clock in half microseconds. Want of memory consumes the
    /// core.
    pub fn step(self, entry: Entry) -> Result<Outcome, AllocError>
        requires { MayBeAsked self.plan self.site entry.input }
        ensures outcome { IfOk result (λ out. (plan : PlanData) (n : Node) → IsCoreOf self plan n → IsOutcome plan n entry out) }
        ensures spelled { IfOk result (λ out. IsSpellableReply out.reply) }
        ensures plan { IfOk result (λ out. out.core.plan ≡ self.plan) }
        ensures site { IfOk result (λ out. out.core.site ≡ self.site) }
    {
        a_step_keeps_limits();
        each_reply_is_spellable();
        let (answered, reply) = answer(self.node, entry)?;
        let (node, added, commits) = answered.finish();
        let gained = added.items().len() as u64;
        let core = Core {
            node,
            log_length: self.log_length.saturating_add(gained),
        };
        let outcome = Outcome {
            core,
            reply,
            added,
            commits,
        };
        Ok(outcome)
    }

    /// Takes an input that was answered before, as `step` does, and spares the answer. Want of memory consumes the core.
    pub fn redo(self, entry: Entry) -> Result<Redone, AllocError>
        requires { MayBeAsked self.plan self.site entry.input }
        ensures redone { IfOk result (λ out. (plan : PlanData) (n : Node) → IsCoreOf self plan n → IsRedone plan n entry out) }
        ensures plan { IfOk result (λ out. out.core.plan ≡ self.plan) }
        ensures site { IfOk result (λ out. out.core.site ≡ self.site) }
    {
        a_step_keeps_limits();
        let moved = redo(self.node, entry)?;
        let (node, added, commits) = moved.finish();
        let gained = added.items().len() as u64;
        let later = self.log_length.saturating_add(gained);
        let core = Core {
            node,
            log_length: later,
        };
        let redone = Redone { core, commits };
        Ok(redone)
    }

    /// What is known of a transaction at its own site; Unknown where the id is not of a transaction of this one.
    pub fn status(&self, id: TxnId) -> State
        ensures { (plan : PlanData) (n : Node) → IsCoreOf self.now plan n → result ≡ status n id }
    {
        self.node.ledger().status(&id)
    }

    /// The current version and value of a key; the empty value where nothing was written.
    pub fn current(&self, key: &Key) -> (Version, &[u8])
        ensures version { (plan : PlanData) (n : Node) → IsCoreOf self.now plan n → result.0 ≡ current n.log key.now }
        ensures spelled { IsSpellableVersion result.0 }
        ensures value { (plan : PlanData) (n : Node) → IsCoreOf self.now plan n → result.1.now ≡ current_value n.log key.now }
    {
        each_current_version_is_spellable();
        self.node.ledger().current(key)
    }

    /// Where the node has come to.
    pub fn summary(&self) -> Summary
        ensures { (plan : PlanData) (n : Node) → IsCoreOf self.now plan n → IsSummaryOf plan n result }
    {
        let summary = Summary {
            time: Time::of(self.node.clock()),
            log: self.log_length,
            pending: self.node.ledger().own_open(),
        };
        summary
    }
}
