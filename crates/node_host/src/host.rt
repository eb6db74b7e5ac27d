//! A node over its journal.
ghost use Rattle.std.specs.Prelude.{◌≡◌, ◌<◌, ◌≤◌, ℕ, length, take, drop};
ghost use Rattle.commit_offsets.specs.Fingerprint.{fingerprint_of};
ghost use Rattle.commit_rules.specs.Core.{IsCoreOf};
ghost use Rattle.commit_rules.specs.Outcome.{IsSummaryOf};
ghost use Rattle.helios_model.specs.Log.{current, current_value};
ghost use Rattle.helios_model.specs.Node.{Node, status};
ghost use Rattle.helios_model.specs.Plans.{PlanData, count_of};
ghost use Rattle.helios_model.specs.Spellable.{IsSpellableVersion};

use commit_rules::{Core, Summary};
use helios_model::{Commits, Key, Replies, SiteId, State, TxnId, Version};
use node_journal::Journal;
use std::marker::Model;

/// A site's node over the journal that it answers from.
#[derive(Drop)]
pub struct Host {
    pub(crate) core: Core,
    pub(crate) journal: Journal,
    pub(crate) fingerprint: [u8; 32],
    pub(crate) site: SiteId,
    pub(crate) count: u8,
}

impl Model for Host {
    ghost use Rattle.std.specs.Prelude.{◌≡◌};
    ghost use Rattle.commit_offsets.specs.Fingerprint.{fingerprint_of};
    ghost use Rattle.helios_model.specs.Plans.{count_of};
    ghost use Rattle.node_host.specs.States.{HostState};

    ghost Value = { HostState };

    ghost view = { λ h. record { core = h.core; gate = h.journal.gate; limit = h.journal.limit; fingerprint = h.fingerprint } };

    ghost invariant = { λ h. (h.fingerprint ≡ fingerprint_of h.core.plan) × (h.site ≡ h.core.site) × (h.count ≡ count_of h.core.plan) };
}

/// What an opening gives: the host, how many batches its journal has, and the own Commits of the last one.
#[derive(Drop)]
pub struct Opened {
    pub host: Host,
    pub batches: u64,
    pub last: Commits,
}

/// What a batch gives: the host after it, the replies to its entries in their order, and the own Commits.
#[derive(Drop)]
pub struct Batched {
    pub host: Host,
    pub replies: Replies,
    pub commits: Commits,
}

impl Host {
    /// What is known of a transaction at its own site.
    pub fn status(&self, id: TxnId) -> State
        ensures { (plan : PlanData) (n : Node) → IsCoreOf self.now.core plan n → result ≡ status n id }
    {
        self.core.status(id)
    }

    /// The current version and value of a key; the empty value where nothing was written.
    pub fn current(&self, key: &Key) -> (Version, &[u8])
        ensures version { (plan : PlanData) (n : Node) → IsCoreOf self.now.core plan n → result.0 ≡ current n.log key.now }
        ensures spelled { IsSpellableVersion result.0 }
        ensures value { (plan : PlanData) (n : Node) → IsCoreOf self.now.core plan n → result.1.now ≡ current_value n.log key.now }
    {
        self.core.current(key)
    }

    /// Where the node has come to.
    pub fn summary(&self) -> Summary
        ensures { (plan : PlanData) (n : Node) → IsCoreOf self.now.core plan n → IsSummaryOf plan n result }
    {
        self.core.summary()
    }

    /// The fingerprint of the plan.
    pub fn fingerprint(&self) -> [u8; 32]
        ensures { result ≡ fingerprint_of self.now.core.plan }
    {
        self.fingerprint
    }

    /// The site.
    pub fn site(&self) -> SiteId
        ensures { result ≡ self.now.core.site }
    {
        self.site
    }

    /// How many sites the plan has.
    pub fn count(&self) -> u8
        ensures { result ≡ count_of self.now.core.plan }
    {
        self.count
    }
}
