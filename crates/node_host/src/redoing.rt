//! Entries that were answered in an earlier life of a node, taken again one after the other.
ghost use Rattle.std.specs.Prelude.{◌≡◌, ◌++◌, [], ◌∷◌, IfOk, IfSome, List, is_some};
ghost use Rattle.helios_model.specs.declared.entries.Entry.{Entry};
ghost use Rattle.helios_model.specs.Node.{Node};
ghost use Rattle.helios_model.specs.Plans.{PlanData};
ghost use Rattle.helios_model.specs.Step.{MayBeAsked, step};
ghost use Rattle.commit_rules.specs.Core.{IsCoreOf};
ghost use Rattle.commit_rules.specs.Outcome.{IsRedone};
ghost use Rattle.node_host.specs.Answering.{HasRedone};
ghost use Rattle.node_host.specs.Journals.{AreAsked};

use commit_rules::{Core, Outcome, Redone};
use helios_model::{CommitEvent, Entry, Records};
use std::alloc::AllocError;

/// A core, the own Commits so far, and the whole log where it is kept.
#[derive(Drop)]
pub(crate) struct Redoing {
    pub(crate) core: Core,
    pub(crate) commits: Vec<CommitEvent>,
    pub(crate) log: Option<Records>,
}

/// Takes an entry again, and adds what the log grows by where it is kept.
fn redo_kept(
    core: Core,
    log: Option<Records>,
    entry: Entry,
) -> Result<(Redone, Option<Records>), AllocError>
    requires may { MayBeAsked core.plan core.site entry.input }
    ensures redone { IfOk result (λ r. (plan : PlanData) (n : Node) → IsCoreOf core plan n → IsRedone plan n entry r.0) }
    ensures logged { IfOk result (λ r. (plan : PlanData) (n : Node) → IsCoreOf core plan n
        → IfSome log (λ records. records ≡ n.log) → IfSome r.1 (λ records. records ≡ (step plan n entry).node.log)) }
    ensures kept { IfOk result (λ r. is_some r.1 ≡ is_some log) }
    ensures plan { IfOk result (λ r. r.0.core.plan ≡ core.plan) }
    ensures site { IfOk result (λ r. r.0.core.site ≡ core.site) }
{
    let Some(log) = log else {
        return Ok((core.redo(entry)?, None));
    };
    // What an entry added is a part of what its step answers.
    let Outcome {
        core,
        added,
        commits,
        ..
    } = core.step(entry)?;
    let mut records = log.into_items();
    records.append(&mut added.into_items())?;
    Ok((Redone { core, commits }, Some(Records::new(records))))
}

impl Redoing {
    /// Takes one entry more again.
    fn redo(self, entry: Entry) -> Result<Redoing, AllocError>
        requires may { MayBeAsked self.core.plan self.core.site entry.input }
        ensures redone { IfOk result (λ after. (plan : PlanData) (n : Node) (before : List Entry)
            → HasRedone plan n before self.core self.commits.items self.log → HasRedone plan n (before ++ entry ∷ []) after.core after.commits.items after.log) }
        ensures kept { IfOk result (λ after. is_some after.log ≡ is_some self.log) }
        ensures plan { IfOk result (λ after. after.core.plan ≡ self.core.plan) }
        ensures site { IfOk result (λ after. after.core.site ≡ self.core.site) }
    {
        let Redoing {
            core,
            mut commits,
            log,
        } = self;
        let (redone, log) = redo_kept(core, log, entry)?;
        let Redone {
            core,
            commits: fresh,
        } = redone;
        commits.append(&mut fresh.into_items())?;
        Ok(Redoing { core, commits, log })
    }

    /// Takes these entries again in their order, without the answers. Want of memory consumes the core.
    pub(crate) fn redo_all(self, entries: Vec<Entry>) -> Result<Redoing, AllocError>
        requires may { AreAsked self.core.plan self.core.site entries.items }
        ensures redone { IfOk result (λ after. (plan : PlanData) (n : Node) (before : List Entry)
            → HasRedone plan n before self.core self.commits.items self.log → HasRedone plan n (before ++ entries.items) after.core after.commits.items after.log) }
        ensures kept { IfOk result (λ after. is_some after.log ≡ is_some self.log) }
        ensures plan { IfOk result (λ after. after.core.plan ≡ self.core.plan) }
        ensures site { IfOk result (λ after. after.core.site ≡ self.core.site) }
    {
        let mut redoing = self;
        for entry in entries {
            redoing = redoing.redo(entry)?;
        }
        Ok(redoing)
    }
}
