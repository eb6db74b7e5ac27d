//! The opening of a host.
ghost use Rattle.std.specs.Prelude.{◌≡◌, ◌≢◌, ◌⊎◌, ◌^◌, ◌<◌, ◌≤◌, List, Some, Err, option_map, is_some, IfSome, IfOk, IfErr, IsErrOf};
ghost use Rattle.std.specs.Option.{ForSome};
ghost use Rattle.outside_io.specs.Causes.{IsCount, Rose};
ghost use Rattle.helios_model.specs.declared.entries.Entry.{Entry};
ghost use Rattle.helios_model.specs.Plans.{IsAccepted, count_of};
ghost use Rattle.disk_store.specs.Disk.{IsAtRest, IsImage, at_rest};
ghost use Rattle.disk_store.specs.Moments.{AtEachMoment};
ghost use Rattle.disk_store.specs.Outlook.{never};
ghost use Rattle.node_journal.specs.Appending.{IsReady};
ghost use Rattle.node_journal.specs.Opening.{IsUnwritten, opened};
ghost use Rattle.node_host.specs.Hosts.{IsHostOn, IsOpened, StandsForSome};
ghost use Rattle.node_host.specs.Journals.{HoldsBatches, KeepsBatches};
ghost use Rattle.node_host.specs.Openings.{IsBegunOpen, IsRefusal, Opens};
ghost use Rattle.node_journal.specs.Devices.{SameRoom, StaysQuiet};

use crate::HostFault;
use crate::fresh::Fresh;
use crate::host::{Host, Opened};
use disk_store::Disk;
use helios_model::{Plan, SiteId};
use node_journal::Journal;
use node_journal::laws::one_list;
use std::alloc::Global;

impl Host {
    /// Opens the journal of a site of a plan, takes its batches, and adds the head where there is none. The limit is the journal's greatest
    /// length, in bytes.
    pub fn open<D: Disk>(
        alloc: Global,
        plan: Plan,
        site: SiteId,
        limit: u64,
        disk: &mut D,
    ) -> Result<Opened, HostFault>
        requires accepted { IsAccepted plan }
        requires here { site < count_of plan }
        requires some { 1 ≤ limit }
        requires bounded { limit ≤ 2 ^ 40 }

        // What stands in the journal decides how the opening ends; on Ok the host stands for its batches.
        ensures ends { IfSome (D.state disk.old) (λ d. Opens plan site limit d.bytes result) }
        ensures stands { IfOk result (λ o. IfSome (D.state disk.old) (λ d. (batches : List (List Entry)) → HoldsBatches plan site batches d.bytes
            → IsOpened plan site batches o × ForSome (D.state disk.new) (IsHostOn o.host batches))) }
        // Whatever the disk tells, the host stands for the node that some batches make.
        ensures node { IfOk result (StandsForSome plan site) }
        ensures ready { IfOk result (λ o. ForSome (D.state disk.new) (λ d. IsReady d o.host.gate)) }
        ensures plan { IfOk result (λ o. o.host.core.plan ≡ plan) }
        ensures site { IfOk result (λ o. o.host.core.site ≡ site) }
        ensures limit { IfOk result (λ o. o.host.limit ≡ limit) }

        // At every moment the disk is as it was before the first sync, or each image holds the batches that it read as;
        // where nothing was pending before, each image always does.
        ensures any_moment { IfSome (D.state disk.old) (λ d.
            AtEachMoment (D.past disk.old) (D.past disk.new) (D.state disk.new) (λ t. (t ≡ d) ⊎ KeepsBatches plan site d t)) }
        ensures any_moment_at_rest { IfSome (D.state disk.old) (λ d. IsAtRest d →
            AtEachMoment (D.past disk.old) (D.past disk.new) (D.state disk.new) (λ t. KeepsBatches plan site d t)) }

        // Behind a first gate that is open nothing is ever written, whatever stands there.
        ensures unwritten { IfSome (D.state disk.old) (λ d. IsBegunOpen d.bytes →
            AtEachMoment (D.past disk.old) (D.past disk.new) (D.state disk.new) (IsUnwritten d)) }

        // A journal that is none of this site of this plan is left as it reads, and one without room for the head without a head.
        ensures unread { IfErr result (λ fault. IsRefusal fault → D.state disk.new ≡ option_map (λ d. at_rest d.bytes) (D.state disk.old)) }
        ensures full { IsErrOf result HostFault.JournalFull → D.state disk.new ≡ option_map (λ d. at_rest (opened d.bytes)) (D.state disk.old) }

        // At each exit the disk reads as one of its images, and tells what it told.
        ensures image { IfSome (D.state disk.new) (λ d. (D.state disk.new ≡ D.state disk.old) ⊎ IsImage d d.bytes) }
        ensures told { is_some (D.state disk.new) ≡ is_some (D.state disk.old) }
        ensures room { SameRoom (D.outlook disk.old) (D.outlook disk.new) }
        ensures keeps { D.keeps disk.new ≡ D.keeps disk.old }
        ensures later { D.faults disk.old ≤ D.faults disk.new }
        ensures count { IsCount (D.faults disk.old) → IsCount (D.faults disk.new) }
        ensures steady { IsErrOf result HostFault.DiskFailed ⊎ (D.faults disk.new ≡ D.faults disk.old) }
        ensures cause { IsErrOf result HostFault.DiskFailed → Rose (D.faults disk.old) (D.faults disk.new) }
        ensures quiet { StaysQuiet (D.outlook disk.old) (D.outlook disk.new) }
        ensures failed { IfSome (D.outlook disk.old) (λ o. IsErrOf result HostFault.DiskFailed → (o.failing ≢ never) ⊎ (o.room < 40)) }
    {
        one_list();
        let fresh = Fresh::new(alloc, plan, site)?;
        let reading = Journal::open(disk, limit)?;
        fresh.read(alloc, reading, disk)
    }
}
