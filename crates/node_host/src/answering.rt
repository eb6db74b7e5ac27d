//! Entries that a core answers, one after the other.
ghost use Rattle.std.specs.Prelude.{◌≡◌, ◌++◌, [], ◌∷◌, IfOk, List, All};
ghost use Rattle.helios_model.specs.declared.entries.Entry.{Entry};
ghost use Rattle.helios_model.specs.Node.{Node};
ghost use Rattle.helios_model.specs.Plans.{PlanData};
ghost use Rattle.helios_model.specs.Spellable.{IsSpellableReply};
ghost use Rattle.helios_model.specs.Step.{MayBeAsked};
ghost use Rattle.node_host.specs.Answering.{HasAnswered};
ghost use Rattle.node_host.specs.Journals.{AreAsked};

use commit_rules::{Core, Outcome};
use helios_model::{CommitEvent, Entry, Reply};
use std::alloc::AllocError;

/// A core, and what it answered so far: its replies, and its own Commits.
#[derive(Drop)]
pub(crate) struct Answered {
    pub(crate) core: Core,
    pub(crate) replies: Vec<Reply>,
    pub(crate) commits: Vec<CommitEvent>,
}

impl Answered {
    /// Answers one entry more.
    fn answer(self, entry: Entry) -> Result<Answered, AllocError>
        requires may { MayBeAsked self.core.plan self.core.site entry.input }
        ensures answered { IfOk result (λ after. (plan : PlanData) (n : Node) (before : List Entry)
            → HasAnswered plan n before self.core self.replies.items self.commits.items
            → HasAnswered plan n (before ++ entry ∷ []) after.core after.replies.items after.commits.items) }
        ensures spelled { IfOk result (λ after. All IsSpellableReply self.replies.items → All IsSpellableReply after.replies.items) }
        ensures plan { IfOk result (λ after. after.core.plan ≡ self.core.plan) }
        ensures site { IfOk result (λ after. after.core.site ≡ self.core.site) }
    {
        let Answered {
            core,
            mut replies,
            mut commits,
        } = self;
        let Outcome {
            core,
            reply,
            commits: fresh,
            ..
        } = core.step(entry)?;
        replies.push(reply)?;
        commits.append(&mut fresh.into_items())?;
        Ok(Answered {
            core,
            replies,
            commits,
        })
    }

    /// Answers these entries in their order. Want of memory consumes the core.
    pub(crate) fn answer_all(self, entries: Vec<Entry>) -> Result<Answered, AllocError>
        requires may { AreAsked self.core.plan self.core.site entries.items }
        ensures answered { IfOk result (λ after. (plan : PlanData) (n : Node) (before : List Entry)
            → HasAnswered plan n before self.core self.replies.items self.commits.items
            → HasAnswered plan n (before ++ entries.items) after.core after.replies.items after.commits.items) }
        ensures spelled { IfOk result (λ after. All IsSpellableReply self.replies.items → All IsSpellableReply after.replies.items) }
        ensures plan { IfOk result (λ after. after.core.plan ≡ self.core.plan) }
        ensures site { IfOk result (λ after. after.core.site ≡ self.core.site) }
    {
        let mut answered = self;
        for entry in entries {
            answered = answered.answer(entry)?;
        }
        Ok(answered)
    }
}
