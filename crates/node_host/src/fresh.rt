//! A host before it has read its journal: the parts of an opening.
ghost use Rattle.std.specs.Prelude.{◌≡◌, ◌≢◌, ◌⊎◌, ◌^◌, ◌<◌, ◌≤◌, [], List, Err, Some, option_map, is_some, slice_index, IfSome, IfOk, IfErr, IsErrOf};
ghost use Rattle.std.specs.Option.{ForSome};
ghost use Rattle.outside_io.specs.Causes.{IsCount, Rose};
ghost use Rattle.helios_model.specs.declared.entries.Entry.{Entry};
ghost use Rattle.helios_model.specs.Plans.{IsAccepted, count_of};
ghost use Rattle.disk_store.specs.Disk.{IsImage};
ghost use Rattle.disk_store.specs.Moments.{AtEachMoment};
ghost use Rattle.disk_store.specs.Outlook.{never};
ghost use Rattle.node_journal.specs.Appending.{IsReady};
ghost use Rattle.node_host.specs.Fresh.{HasFirst, IsBegun};
ghost use Rattle.node_host.specs.Hosts.{IsHostOn, IsOpened, StandsForSome};
ghost use Rattle.node_host.specs.Journals.{HoldsBatches, KeepsBatches};
ghost use Rattle.node_host.specs.Kept.{GivesLog, IsLogOfSome};
ghost use Rattle.node_host.specs.Opening.{IsReadThrough, IsRecovered};
ghost use Rattle.node_host.specs.Openings.{IsRefusal, Opens, Stops};
ghost use Rattle.node_journal.specs.Devices.{SameRoom, StaysQuiet};

use crate::HostFault;
use crate::heading::{make_head, test_head};
use crate::host::{Host, Opened};
use crate::opening::recover;
use crate::recovery::Recovery;
use commit_offsets::fingerprint;
use commit_rules::Core;
use disk_store::Disk;
use helios_model::{Bytes, Commits, MOST_SITES, Plan, Records, SiteId};
use log_records::heads_are_read_again;
use node_journal::laws::one_list;
use node_journal::{Found, Journal, Reading};
use std::alloc::{AllocError, Global};
use std::marker::Model;

/// A site's core before its first batch, and what a host keeps beside it.
#[derive(Drop)]
pub(crate) struct Fresh {
    core: Core,
    fingerprint: [u8; 32],
    site: SiteId,
    count: u8,
}

impl Model for Fresh {
    ghost use Rattle.commit_rules.specs.Core.{CoreState};
    ghost use Rattle.node_host.specs.Fresh.{IsFresh};

    ghost Value = { CoreState };

    ghost view = { λ f. f.core };

    ghost invariant = { λ f. IsFresh f.core f.fingerprint f.site f.count };
}

impl Fresh {
    /// A site of a plan. It takes all the memory that does not depend on the journal.
    pub(crate) fn new(alloc: Global, plan: Plan, site: SiteId) -> Result<Fresh, AllocError>
        requires here { site < count_of plan }
        ensures plan { IfOk result (λ fresh. fresh.plan ≡ plan) }
        ensures site { IfOk result (λ fresh. fresh.site ≡ site) }
    {
        let fingerprint = fingerprint(alloc, &plan)?;
        let count = plan.count();
        prove!(count <= MOST_SITES);
        let core = Core::new(alloc, plan, site)?;
        Ok(Fresh {
            core,
            fingerprint,
            site,
            count,
        })
    }

    /// Reads the first frame of a journal, and the batches behind it; makes the head where there is none.
    pub(crate) fn read<D: Disk>(
        self,
        alloc: Global,
        reading: Reading,
        disk: &mut D,
    ) -> Result<Opened, HostFault>
        requires first { reading.gate ≡ 0 }
        requires begun { ForSome (D.state disk.old) IsBegun }
        ensures ends { IfSome (D.state disk.old) (λ d. Opens self.plan self.site reading.limit d.bytes result) }
        ensures stands { IfOk result (λ o. IfSome (D.state disk.old) (λ d. (batches : List (List Entry)) → HoldsBatches self.plan self.site batches d.bytes
            → IsOpened self.plan self.site batches o × ForSome (D.state disk.new) (IsHostOn o.host batches))) }
        ensures node { IfOk result (StandsForSome self.plan self.site) }
        ensures plan { IfOk result (λ o. o.host.core.plan ≡ self.plan) }
        ensures site { IfOk result (λ o. o.host.core.site ≡ self.site) }
        ensures limit { IfOk result (λ o. o.host.limit ≡ reading.limit) }
        ensures any_moment { IfSome (D.state disk.old) (λ d.
            AtEachMoment (D.past disk.old) (D.past disk.new) (D.state disk.new) (λ t. KeepsBatches self.plan self.site d t)) }
        ensures unwritten { IfSome (D.state disk.old) (λ d. slice_index d.bytes 0 ≡ 1 → (D.state disk.new ≡ D.state disk.old) × (D.past disk.new ≡ D.past disk.old)) }
        ensures unread { IfErr result (λ fault. IsRefusal fault → D.state disk.new ≡ D.state disk.old) }
        ensures full { IsErrOf result HostFault.JournalFull → D.state disk.new ≡ D.state disk.old }
        ensures image { IfSome (D.state disk.new) (λ d. (D.state disk.new ≡ D.state disk.old) ⊎ IsImage d d.bytes) }
        ensures told { is_some (D.state disk.new) ≡ is_some (D.state disk.old) }
        ensures room { SameRoom (D.outlook disk.old) (D.outlook disk.new) }
        ensures keeps { D.keeps disk.new ≡ D.keeps disk.old }
        ensures later { D.faults disk.old ≤ D.faults disk.new }
        ensures count { IsCount (D.faults disk.old) → IsCount (D.faults disk.new) }
        ensures steady { IsErrOf result HostFault.DiskFailed ⊎ (D.faults disk.new ≡ D.faults disk.old) }
        ensures cause { IsErrOf result HostFault.DiskFailed → Rose (D.faults disk.old) (D.faults disk.new) }
        ensures quiet { StaysQuiet (D.outlook disk.old) (D.outlook disk.new) }
        ensures failed { IfSome (D.outlook disk.old) (λ o. IsErrOf result HostFault.DiskFailed → (o.failing ≢ never) ⊎ (o.room < 40)) }
    {
        match reading.next(alloc, disk)? {
            Found::Last(journal) => self.begin(alloc, journal, disk),
            Found::Frame {
                reading,
                at: _,
                payload,
            } => self.go_on(alloc, payload, reading, disk),
        }
    }

    /// Adds the head to a journal that holds nothing.
    fn begin<D: Disk>(
        self,
        alloc: Global,
        journal: Journal,
        disk: &mut D,
    ) -> Result<Opened, HostFault>
        requires ready { ForSome (D.state disk.old) (λ d. IsReady d journal.gate) }
        requires first { journal.gate ≡ 0 }
        ensures ends { IfSome (D.state disk.old) (λ d. Opens self.plan self.site journal.limit d.bytes result) }
        ensures stands { IfOk result (λ o. IfSome (D.state disk.old) (λ d. (batches : List (List Entry)) → HoldsBatches self.plan self.site batches d.bytes
            → IsOpened self.plan self.site batches o × ForSome (D.state disk.new) (IsHostOn o.host batches))) }
        ensures node { IfOk result (StandsForSome self.plan self.site) }
        ensures plan { IfOk result (λ o. o.host.core.plan ≡ self.plan) }
        ensures site { IfOk result (λ o. o.host.core.site ≡ self.site) }
        ensures limit { IfOk result (λ o. o.host.limit ≡ journal.limit) }
        ensures any_moment { IfSome (D.state disk.old) (λ d.
            AtEachMoment (D.past disk.old) (D.past disk.new) (D.state disk.new) (λ t. KeepsBatches self.plan self.site d t)) }
        ensures unread { IfErr result (λ fault. IsRefusal fault → D.state disk.new ≡ D.state disk.old) }
        ensures full { IsErrOf result HostFault.JournalFull → D.state disk.new ≡ D.state disk.old }
        ensures image { IfSome (D.state disk.new) (λ d. (D.state disk.new ≡ D.state disk.old) ⊎ IsImage d d.bytes) }
        ensures told { is_some (D.state disk.new) ≡ is_some (D.state disk.old) }
        ensures room { SameRoom (D.outlook disk.old) (D.outlook disk.new) }
        ensures keeps { D.keeps disk.new ≡ D.keeps disk.old }
        ensures later { D.faults disk.old ≤ D.faults disk.new }
        ensures count { IsCount (D.faults disk.old) → IsCount (D.faults disk.new) }
        ensures steady { IsErrOf result HostFault.DiskFailed ⊎ (D.faults disk.new ≡ D.faults disk.old) }
        ensures cause { IsErrOf result HostFault.DiskFailed → Rose (D.faults disk.old) (D.faults disk.new) }
        ensures quiet { StaysQuiet (D.outlook disk.old) (D.outlook disk.new) }
        ensures failed { IfSome (D.outlook disk.old) (λ o. IsErrOf result HostFault.DiskFailed → (o.failing ≢ never) ⊎ (o.room < 40)) }
    {
        heads_are_read_again();
        one_list();
        let Fresh {
            core,
            fingerprint,
            site,
            count,
        } = self;
        let journal = make_head(alloc, fingerprint, site, journal, disk)?;
        Ok(Opened {
            host: Host {
                core,
                journal,
                fingerprint,
                site,
                count,
            },
            batches: 0,
            last: Commits::new(Vec::new(alloc)),
        })
    }

    /// Tests the payload that the journal begins with, and takes the batches behind it.
    fn go_on<D: Disk>(
        self,
        alloc: Global,
        payload: Bytes,
        reading: Reading,
        disk: &mut D,
    ) -> Result<Opened, HostFault>
        requires begins { ForSome (D.state disk.old) (HasFirst payload reading.gate) }
        requires behind { 0 < reading.gate }
        requires low { reading.gate < 2 ^ 64 }
        ensures ends { IfSome (D.state disk.old) (λ d. Opens self.plan self.site reading.limit d.bytes result) }
        ensures stands { IfOk result (λ o. IfSome (D.state disk.old) (λ d. (batches : List (List Entry)) → HoldsBatches self.plan self.site batches d.bytes
            → IsOpened self.plan self.site batches o × ForSome (D.state disk.new) (IsHostOn o.host batches))) }
        ensures node { IfOk result (StandsForSome self.plan self.site) }
        ensures plan { IfOk result (λ o. o.host.core.plan ≡ self.plan) }
        ensures site { IfOk result (λ o. o.host.core.site ≡ self.site) }
        ensures limit { IfOk result (λ o. o.host.limit ≡ reading.limit) }
        ensures same { D.state disk.new ≡ D.state disk.old }
        ensures same_past { D.past disk.new ≡ D.past disk.old }
        ensures room { SameRoom (D.outlook disk.old) (D.outlook disk.new) }
        ensures keeps { D.keeps disk.new ≡ D.keeps disk.old }
        ensures later { D.faults disk.old ≤ D.faults disk.new }
        ensures count { IsCount (D.faults disk.old) → IsCount (D.faults disk.new) }
        ensures steady { IsErrOf result HostFault.DiskFailed ⊎ (D.faults disk.new ≡ D.faults disk.old) }
        ensures cause { IsErrOf result HostFault.DiskFailed → Rose (D.faults disk.old) (D.faults disk.new) }
        ensures quiet { StaysQuiet (D.outlook disk.old) (D.outlook disk.new) }
        ensures failed { IfSome (D.outlook disk.old) (λ o. IsErrOf result HostFault.DiskFailed → o.failing ≢ never) }
    {
        one_list();
        let (fingerprint, site, count) = (self.fingerprint, self.site, self.count);
        let (recovery, journal) = self.recover(alloc, None, payload, reading, disk)?;
        let Recovery {
            core,
            batches,
            last,
            log: _,
        } = recovery;
        Ok(Opened {
            host: Host {
                core,
                journal,
                fingerprint,
                site,
                count,
            },
            batches,
            last,
        })
    }

    /// Tests the payload that the journal begins with, and takes the batches behind it, with the log where an empty one is given.
    fn recover<D: Disk>(
        self,
        alloc: Global,
        log: Option<Records>,
        payload: Bytes,
        reading: Reading,
        disk: &mut D,
    ) -> Result<(Recovery, Journal), HostFault>
        requires empty { IfSome log (λ records. records ≡ []) }
        requires begins { ForSome (D.state disk.old) (HasFirst payload reading.gate) }
        requires behind { 0 < reading.gate }
        requires low { reading.gate < 2 ^ 64 }
        ensures through { IfOk result (λ r. IfSome (D.state disk.old) (λ d. IsReadThrough self.plan self.site d.bytes r.1.gate r.0)) }
        ensures stops { IfErr result (λ fault. IfSome (D.state disk.old) (λ d. Stops self.plan self.site d.bytes fault)) }
        ensures recovered { IfOk result (λ r. IsRecovered self.plan self.site r.0) }
        ensures kept { IfOk result (λ r. is_some r.0.log ≡ is_some log) }
        ensures not_full { result ≢ Err HostFault.JournalFull }
        ensures plan { IfOk result (λ r. r.0.core.plan ≡ self.plan) }
        ensures site { IfOk result (λ r. r.0.core.site ≡ self.site) }
        ensures limit { IfOk result (λ r. r.1.limit ≡ reading.limit) }
        ensures same { D.state disk.new ≡ D.state disk.old }
        ensures same_past { D.past disk.new ≡ D.past disk.old }
        ensures room { SameRoom (D.outlook disk.old) (D.outlook disk.new) }
        ensures keeps { D.keeps disk.new ≡ D.keeps disk.old }
        ensures later { D.faults disk.old ≤ D.faults disk.new }
        ensures count { IsCount (D.faults disk.old) → IsCount (D.faults disk.new) }
        ensures steady { IsErrOf result HostFault.DiskFailed ⊎ (D.faults disk.new ≡ D.faults disk.old) }
        ensures cause { IsErrOf result HostFault.DiskFailed → Rose (D.faults disk.old) (D.faults disk.new) }
        ensures quiet { StaysQuiet (D.outlook disk.old) (D.outlook disk.new) }
        ensures failed { IfSome (D.outlook disk.old) (λ o. IsErrOf result HostFault.DiskFailed → o.failing ≢ never) }
    {
        let Fresh {
            core,
            fingerprint,
            site,
            count,
        } = self;
        test_head(fingerprint, site, &payload)?;
        let first = Recovery::new(alloc, core, log);
        recover(
            alloc,
            count,
            site,
            first,
            payload.into_items(),
            reading,
            disk,
        )
    }

    /// Reads the batches of a journal, and gives the log that they make. It writes nothing.
    pub(crate) fn records<D: Disk>(
        self,
        alloc: Global,
        reading: Reading,
        disk: &mut D,
    ) -> Result<Records, HostFault>
        requires first { reading.gate ≡ 0 }
        requires begun { ForSome (D.state disk.old) IsBegun }
        ensures ends { IfSome (D.state disk.old) (λ d. GivesLog self.plan self.site d.bytes result) }
        ensures node { IfOk result (IsLogOfSome self.plan self.site) }
        ensures not_full { result ≢ Err HostFault.JournalFull }
        ensures same { D.state disk.new ≡ D.state disk.old }
        ensures same_past { D.past disk.new ≡ D.past disk.old }
        ensures room { SameRoom (D.outlook disk.old) (D.outlook disk.new) }
        ensures keeps { D.keeps disk.new ≡ D.keeps disk.old }
        ensures later { D.faults disk.old ≤ D.faults disk.new }
        ensures count { IsCount (D.faults disk.old) → IsCount (D.faults disk.new) }
        ensures steady { IsErrOf result HostFault.DiskFailed ⊎ (D.faults disk.new ≡ D.faults disk.old) }
        ensures cause { IsErrOf result HostFault.DiskFailed → Rose (D.faults disk.old) (D.faults disk.new) }
        ensures quiet { StaysQuiet (D.outlook disk.old) (D.outlook disk.new) }
        ensures failed { IfSome (D.outlook disk.old) (λ o. IsErrOf result HostFault.DiskFailed → o.failing ≢ never) }
    {
        match reading.next(alloc, disk)? {
            Found::Last(_) => Ok(Records::new(Vec::new(alloc))),
            Found::Frame {
                reading,
                at: _,
                payload,
            } => self.records_behind(alloc, payload, reading, disk),
        }
    }

    /// The log that the batches behind a head make.
    fn records_behind<D: Disk>(
        self,
        alloc: Global,
        payload: Bytes,
        reading: Reading,
        disk: &mut D,
    ) -> Result<Records, HostFault>
        requires begins { ForSome (D.state disk.old) (HasFirst payload reading.gate) }
        requires behind { 0 < reading.gate }
        requires low { reading.gate < 2 ^ 64 }
        ensures ends { IfSome (D.state disk.old) (λ d. GivesLog self.plan self.site d.bytes result) }
        ensures node { IfOk result (IsLogOfSome self.plan self.site) }
        ensures not_full { result ≢ Err HostFault.JournalFull }
        ensures same { D.state disk.new ≡ D.state disk.old }
        ensures same_past { D.past disk.new ≡ D.past disk.old }
        ensures room { SameRoom (D.outlook disk.old) (D.outlook disk.new) }
        ensures keeps { D.keeps disk.new ≡ D.keeps disk.old }
        ensures later { D.faults disk.old ≤ D.faults disk.new }
        ensures count { IsCount (D.faults disk.old) → IsCount (D.faults disk.new) }
        ensures steady { IsErrOf result HostFault.DiskFailed ⊎ (D.faults disk.new ≡ D.faults disk.old) }
        ensures cause { IsErrOf result HostFault.DiskFailed → Rose (D.faults disk.old) (D.faults disk.new) }
        ensures quiet { StaysQuiet (D.outlook disk.old) (D.outlook disk.new) }
        ensures failed { IfSome (D.outlook disk.old) (λ o. IsErrOf result HostFault.DiskFailed → o.failing ≢ never) }
    {
        let log = Some(Records::new(Vec::new(alloc)));
        let (recovery, _journal) = self.recover(alloc, log, payload, reading, disk)?;
        Ok(recovery.log.unwrap())
    }
}
