//! The records of a node's log, by its journal.
ghost use Rattle.std.specs.Prelude.{◌≡◌, ◌≢◌, ◌⊎◌, ◌^◌, ◌<◌, ◌≤◌, List, Result, Err, Some, length, option_map, is_some, IfSome, IfOk, IfErr, IsErrOf};
ghost use Rattle.outside_io.specs.Causes.{IsCount, Rose};
ghost use Rattle.helios_model.specs.declared.records.Record.{Record};
ghost use Rattle.helios_model.specs.Plans.{IsAccepted, count_of};
ghost use Rattle.disk_store.specs.Disk.{IsAtRest, IsImage, at_rest};
ghost use Rattle.disk_store.specs.Moments.{AtEachMoment};
ghost use Rattle.disk_store.specs.Outlook.{never};
ghost use Rattle.node_journal.specs.Opening.{IsUnwritten, opened};
ghost use Rattle.node_host.specs.Journals.{KeepsBatches};
ghost use Rattle.node_host.specs.Kept.{GivesLog, IsDecidedLog, IsLogOfSome};
ghost use Rattle.node_journal.specs.Devices.{SameRoom, StaysQuiet};

use crate::HostFault;
use crate::fresh::Fresh;
use crate::laws::one_log;
use disk_store::Disk;
use helios_model::{Plan, Records, SiteId};
use node_journal::Journal;
use node_journal::laws::one_list;
use std::alloc::Global;

/// The log of a site of a plan that the journal on a disk stands for: no records where the journal holds nothing. It appends no head. The limit
/// is the journal's greatest length, in bytes.
pub fn kept_records<D: Disk>(
    alloc: Global,
    plan: Plan,
    site: SiteId,
    limit: u64,
    disk: &mut D,
) -> Result<Records, HostFault>
    requires accepted { IsAccepted plan }
    requires here { site < count_of plan }
    requires some { 1 ≤ limit }
    requires bounded { limit ≤ 2 ^ 40 }

    // What stands in the journal decides the answer, in both directions.
    ensures ends { IfSome (D.state disk.old) (λ d. GivesLog plan site d.bytes result) }
    ensures decided { IfSome (D.state disk.old) (λ d. (given : Result (List Record) HostFault) → GivesLog plan site d.bytes given → IsDecidedLog given
        → (result ≡ given) ⊎ IsErrOf result HostFault.DiskFailed ⊎ IsErrOf result HostFault.NoMemory) }
    // Whatever the disk tells, the records are the log that some batches make.
    ensures node { IfOk result (IsLogOfSome plan site) }
    ensures not_full { result ≢ Err HostFault.JournalFull }

    // At every moment the disk is as it was before the first sync, or each image holds the batches that it read as;
    // where nothing was pending before, each image always does.
    ensures any_moment { IfSome (D.state disk.old) (λ d.
        AtEachMoment (D.past disk.old) (D.past disk.new) (D.state disk.new) (λ t. (t ≡ d) ⊎ KeepsBatches plan site d t)) }
    ensures any_moment_at_rest { IfSome (D.state disk.old) (λ d. IsAtRest d →
        AtEachMoment (D.past disk.old) (D.past disk.new) (D.state disk.new) (λ t. KeepsBatches plan site d t)) }

    // The disk is left as an opening of the journal leaves it: with a closed gate where there was at most one byte, else as it reads.
    ensures left { IsErrOf result HostFault.DiskFailed ⊎ (D.state disk.new ≡ option_map (λ d. at_rest (opened d.bytes)) (D.state disk.old))
        ⊎ (IsErrOf result HostFault.NoMemory × (D.state disk.new ≡ D.state disk.old)) }
    // Where there are more bytes than one, nothing is ever written, whatever they are.
    ensures unwritten { IfSome (D.state disk.old) (λ d. 1 < length d.bytes →
        AtEachMoment (D.past disk.old) (D.past disk.new) (D.state disk.new) (IsUnwritten d)) }

    // At each exit the disk reads as one of its images, and tells what it told.
    ensures image { IfSome (D.state disk.new) (λ d. (D.state disk.new ≡ D.state disk.old) ⊎ IsImage d d.bytes) }
    ensures told { is_some (D.state disk.new) ≡ is_some (D.state disk.old) }
    ensures room { SameRoom (D.outlook disk.old) (D.outlook disk.new) }
    ensures keeps { D.keeps disk.new ≡ D.keeps disk.old }
    ensures later { D.faults disk.old ≤ D.faults disk.new }
    ensures count { IsCount (D.faults disk.old) → IsCount (D.faults disk.new) }
    ensures steady { IsErrOf result HostFault.DiskFailed ⊎ (D.faults disk.new ≡ D.faults disk.old) }
    ensures cause { IsErrOf result HostFault.DiskFailed → Rose (D.faults disk.old) (D.faults disk.new) }
    ensures quiet { StaysQuiet (D.outlook disk.old) (D.outlook disk.new) }
    ensures failed { IfSome (D.outlook disk.old) (λ o. IsErrOf result HostFault.DiskFailed → (o.failing ≢ never) ⊎ (o.room ≡ 0)) }
{
    one_list();
    one_log();
    let fresh = Fresh::new(alloc, plan, site)?;
    let reading = Journal::open(disk, limit)?;
    fresh.records(alloc, reading, disk)
}
