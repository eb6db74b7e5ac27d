ghost use Rattle.std.specs.Prelude.{◌<◌, IfOk};
ghost use Rattle.helios_model.specs.Plans.{IsAccepted, count_of};
ghost use Rattle.helios_top.specs.Answers.{EndsOver};
ghost use Rattle.helios_top.specs.Disks.{DumpLeavesOver, DumpsSite, IsDumped};
ghost use Rattle.helios_top.specs.Ending.{IsOwn, RefusedOr, end_of};
ghost use Rattle.helios_top.specs.Journals.{IsEndOfFault, IsEndOfLog};
ghost use Rattle.helios_top.specs.Outside.{disk_seen};
ghost use Rattle.helios_top.specs.Refusals.{site_refusal};
ghost use Rattle.helios_top.specs.Runs.Dump.{IsDumpEnd};
ghost use Rattle.helios_top.specs.declared.words.Command.TheVariants.{Dump};

use crate::{Ending, JournalRefusal, Refusal};
use commit_offsets::{PlanRefusal, read_plan};
use disk_store::Disk;
use helios_model::{Plan, Records, SiteId, first_short};
use history_audit::print_records;
use node_host::{HostFault, kept_records};
use std::alloc::{AllocError, Global};

/// The greatest length of a journal, in bytes.
const JOURNAL_LIMIT: u64 = 1 << 40;

/// The records of the log of a site of the plan that the text is, by the journal on the disk.
#[tactic(auto, using(crate::proofs::Dumps::over_ends, crate::proofs::Dumps::over_leaves))]
pub(crate) fn answer<D: Disk>(
    alloc: Global,
    site: SiteId,
    text: &[u8],
    disk: &mut D,
) -> Result<Ending, AllocError>
    ensures ends { IfOk result (EndsOver (Dump site) text.now) }
    ensures disk { DumpLeavesOver site text.now (disk_seen D.state D.past D.outlook D.keeps D.faults disk.old)
        (disk_seen D.state D.past D.outlook D.keeps D.faults disk.new) (end_of result) }
{
    match read_plan(alloc, text) {
        Ok((plan, _)) => answer_plan(alloc, site, plan, disk),
        Err(PlanRefusal::NoMemory) => Err(AllocError),
        Err(refusal) => Ok(Ending::Refused(Refusal::OfPlan(refusal))),
    }
}

/// The records of the log of a site of the plan, where any two sites of it reach their round trip.
#[tactic(auto, using(crate::proofs::Dumps::short_refused, crate::proofs::Dumps::site_refused, crate::proofs::Dumps::site_accepted))]
fn answer_plan<D: Disk>(
    alloc: Global,
    site: SiteId,
    plan: Plan,
    disk: &mut D,
) -> Result<Ending, AllocError>
    ensures ends { IfOk result (λ ending. RefusedOr (site_refusal plan site) ending (IsDumpEnd plan site ending)) }
    ensures disk { DumpsSite plan site (disk_seen D.state D.past D.outlook D.keeps D.faults disk.old)
        (disk_seen D.state D.past D.outlook D.keeps D.faults disk.new) (end_of result) }
{
    match first_short(&plan) {
        Some((i, j)) => Ok(Ending::Refused(Refusal::ShortPair(i, j))),
        None if site.number() < plan.count() => dump(alloc, site, plan, disk),
        None => Ok(Ending::Refused(Refusal::NoSuchSite(site))),
    }
}

/// The records of the log of a site of an accepted plan.
fn dump<D: Disk>(
    alloc: Global,
    site: SiteId,
    plan: Plan,
    disk: &mut D,
) -> Result<Ending, AllocError>
    requires accepted { IsAccepted plan }
    requires here { site < count_of plan }
    ensures ends { IfOk result (λ ending. IsOwn ending × IsDumpEnd plan site ending) }
    ensures disk { IsDumped plan site (disk_seen D.state D.past D.outlook D.keeps D.faults disk.old)
        (disk_seen D.state D.past D.outlook D.keeps D.faults disk.new) (end_of result) }
{
    let kept = kept_records(alloc, plan, site, JOURNAL_LIMIT, disk);
    print_kept(alloc, site, kept)
}

/// The text of the records, or the end that their fault is.
fn print_kept(
    alloc: Global,
    site: SiteId,
    kept: Result<Records, HostFault>,
) -> Result<Ending, AllocError>
    ensures ends { IsEndOfLog site kept (end_of result) }
    ensures own { IfOk result IsOwn }
{
    match kept {
        Ok(records) => Ok(Ending::Printed(print_records(alloc, site, &records)?)),
        Err(fault) => end_of_fault(&fault),
    }
}

/// The end that a fault of the journal is.
fn end_of_fault(fault: &HostFault) -> Result<Ending, AllocError>
    ensures ends { IsEndOfFault fault.now (end_of result) }
    ensures own { IfOk result IsOwn }
{
    match fault {
        HostFault::DiskFailed => Ok(Ending::DiskFault),
        HostFault::Damaged { at } => Ok(Ending::JournalRefused(JournalRefusal::Damaged(*at))),
        HostFault::WrongPlan { kept, given } => {
            Ok(Ending::JournalRefused(JournalRefusal::WrongPlan {
                kept: *kept,
                given: *given,
            }))
        }
        HostFault::WrongSite { kept, given } => {
            Ok(Ending::JournalRefused(JournalRefusal::WrongSite {
                kept: *kept,
                given: *given,
            }))
        }
        // No journal is too long to be read.
        HostFault::JournalFull | HostFault::NoMemory => Err(AllocError),
    }
}
