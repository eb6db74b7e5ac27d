//! A site of a replay: its host over its disk of the bench. A device fault comes only by a stop.
ghost use Rattle.std.specs.Prelude.{◌≡◌, ◌⊎◌, ◌^◌, ◌<◌, ◌≤◌, List, length, Some, IfOk, IfSome, OnOk, OnErr, if◌then◌else◌};
ghost use Rattle.helios_model.specs.declared.entries.Entry.{Entry};
ghost use Rattle.helios_model.specs.Limits.{most_inputs};
ghost use Rattle.helios_model.specs.Node.{Node};
ghost use Rattle.helios_model.specs.Plans.{IsAccepted, count_of};
ghost use Rattle.helios_model.specs.World.{grown, journaled};
ghost use Rattle.commit_rules.specs.Core.{IsCoreOf};
ghost use Rattle.node_journal.specs.Appending.{is_kept};
ghost use Rattle.node_host.specs.Answering.{HasAnswered};
ghost use Rattle.node_host.specs.Journals.{AreAsked};
ghost use Rattle.node_host.specs.Recovery.{recovered};
ghost use Rattle.schedule_replay.specs.Progress.{most_volume};
ghost use Rattle.schedule_replay.specs.Seats.{IsHolding, IsSeated, IsSomeHolding, IsSomeSeated};

use disk_store::{MemDisk, Stop};
use helios_model::{Entries, Plan, SiteId};
use node_host::{
    Batched, Host, HostFault, Opened, a_stopped_batch, an_own_journal_is_opened, frame_length,
};
use std::alloc::{AllocError, Global};

/// The greatest length of a journal, in bytes.
const JOURNAL_LIMIT: u64 = 1 << 40;

/// The length of a journal that has its head alone, in bytes.
const HEADED_LENGTH: u64 = 40;

/// The one fault of a host over a disk of which no call is to fail.
fn only_memory(fault: HostFault) -> AllocError
    requires { fault ≡ HostFault.NoMemory }
{
    match fault {
        HostFault::NoMemory => AllocError,
        _ => unreachable!(),
    }
}

/// Opens a site over its disk.
pub(crate) fn open_seat(
    alloc: Global,
    plan: &Plan,
    site: SiteId,
    disk: &mut MemDisk,
) -> Result<Opened, AllocError>
    requires accepted { IsAccepted plan.now }
    requires here { site < count_of plan.now }
    requires holding { IsSomeHolding plan.now site disk.old }
    ensures seated { IfOk result (λ o. (batches : List (List Entry)) → IsHolding plan.now site batches disk.old → IsSeated plan.now site batches o.host disk.new) }
    ensures last { IfOk result (λ o. (batches : List (List Entry)) → IsHolding plan.now site batches disk.old → o.last ≡ (recovered plan.now site batches).last) }
    ensures kept { OnErr result ((batches : List (List Entry)) → IsHolding plan.now site batches disk.old → IsHolding plan.now site batches disk.new) }
{
    an_own_journal_is_opened();
    let plan = plan.copy()?;
    disk.make_room(HEADED_LENGTH)?;
    match Host::open(alloc, plan, site, JOURNAL_LIMIT, disk) {
        Ok(opened) => Ok(opened),
        Err(fault) => {
            disk.crash();
            Err(only_memory(fault))
        }
    }
}

/// Has a site take a batch.
pub(crate) fn run_batch(
    alloc: Global,
    host: Host,
    entries: Entries,
    disk: &mut MemDisk,
) -> Result<Batched, AllocError>
    requires some { 1 ≤ length entries }
    requires few { length entries ≤ most_inputs }
    requires each { AreAsked host.core.plan host.core.site entries }
    requires seated { IsSomeSeated host.core.plan host.core.site host disk.old }
    requires low { host.gate ≤ most_volume }
    ensures seated { IfOk result (λ b. (batches : List (List Entry)) → IsSeated host.core.plan host.core.site batches host disk.old
        → IsSeated host.core.plan host.core.site (grown batches (journaled entries)) b.host disk.new) }
    ensures answered { IfOk result (λ b. (n : Node) → IsCoreOf host.core host.core.plan n → HasAnswered host.core.plan n entries b.host.core b.replies b.commits) }
    ensures count { IfOk result (λ b. length b.replies ≡ length entries) }
    ensures kept { OnErr result ((batches : List (List Entry)) → IsSeated host.core.plan host.core.site batches host disk.old
        → IsHolding host.core.plan host.core.site batches disk.new ⊎ IsHolding host.core.plan host.core.site (grown batches (journaled entries)) disk.new) }
{
    disk.make_room(frame_length(&entries))?;
    match host.batch(alloc, disk, entries) {
        Ok(batched) => Ok(batched),
        Err(fault) => {
            disk.crash();
            Err(only_memory(fault))
        }
    }
}

/// Has a site take a batch whose seal stops, crashes its disk, and opens the site again.
pub(crate) fn stop_batch(
    alloc: Global,
    plan: &Plan,
    host: Host,
    entries: Entries,
    stop: Stop,
    disk: &mut MemDisk,
) -> Result<Opened, AllocError>
    requires accepted { IsAccepted plan.now }
    requires plan { host.core.plan ≡ plan.now }
    requires here { host.core.site < count_of plan.now }
    requires few { length entries ≤ most_inputs }
    requires journaled { 1 ≤ length (journaled entries) }
    requires each { AreAsked host.core.plan host.core.site entries }
    requires seated { IsSomeSeated host.core.plan host.core.site host disk.old }
    requires low { host.gate ≤ most_volume }
    requires first { 1 ≤ stop.call }
    requires last { stop.call ≤ 4 }
    ensures seated { IfOk result (λ o. (batches : List (List Entry)) → IsSeated host.core.plan host.core.site batches host disk.old
        → IsSeated host.core.plan host.core.site (if is_kept stop.call stop.keep then grown batches (journaled entries) else batches) o.host disk.new) }
    ensures last { IfOk result (λ o. (batches : List (List Entry)) → IsSeated host.core.plan host.core.site batches host disk.old
        → o.last ≡ (recovered host.core.plan host.core.site (if is_kept stop.call stop.keep then grown batches (journaled entries) else batches)).last) }
    ensures kept { OnErr result ((batches : List (List Entry)) → IsSeated host.core.plan host.core.site batches host disk.old
        → IsHolding host.core.plan host.core.site batches disk.new ⊎ IsHolding host.core.plan host.core.site (grown batches (journaled entries)) disk.new) }
{
    let site = host.site();
    stop_seal(alloc, host, entries, stop, disk)?;
    open_seat(alloc, plan, site, disk)
}

/// Has a host take a batch whose seal stops, and crashes its disk.
fn stop_seal(
    alloc: Global,
    host: Host,
    entries: Entries,
    stop: Stop,
    disk: &mut MemDisk,
) -> Result<(), AllocError>
    requires few { length entries ≤ most_inputs }
    requires journaled { 1 ≤ length (journaled entries) }
    requires each { AreAsked host.core.plan host.core.site entries }
    requires seated { IsSomeSeated host.core.plan host.core.site host disk.old }
    requires low { host.gate ≤ most_volume }
    requires first { 1 ≤ stop.call }
    requires last { stop.call ≤ 4 }
    ensures left { OnOk result ((batches : List (List Entry)) → IsSeated host.core.plan host.core.site batches host disk.old
        → IsHolding host.core.plan host.core.site (if is_kept stop.call stop.keep then grown batches (journaled entries) else batches) disk.new) }
    ensures kept { OnErr result ((batches : List (List Entry)) → IsSeated host.core.plan host.core.site batches host disk.old
        → IsHolding host.core.plan host.core.site batches disk.new ⊎ IsHolding host.core.plan host.core.site (grown batches (journaled entries)) disk.new) }
{
    a_stopped_batch();
    disk.make_room(frame_length(&entries))?;
    disk.script(stop);
    let sealed = host.batch(alloc, disk, entries);
    disk.crash();
    match sealed {
        Err(HostFault::DiskFailed) => Ok(()),
        Err(fault) => Err(only_memory(fault)),
        Ok(_) => unreachable!(),
    }
}

/// Opens a site again, first under a stop where there is one, which ends in a crash.
pub(crate) fn restart_seat(
    alloc: Global,
    plan: &Plan,
    site: SiteId,
    stop: Option<Stop>,
    disk: &mut MemDisk,
) -> Result<Opened, AllocError>
    requires accepted { IsAccepted plan.now }
    requires here { site < count_of plan.now }
    requires holding { IsSomeHolding plan.now site disk.old }
    requires first { IfSome stop (λ s. 1 ≤ s.call) }
    ensures seated { IfOk result (λ o. (batches : List (List Entry)) → IsHolding plan.now site batches disk.old → IsSeated plan.now site batches o.host disk.new) }
    ensures kept { OnErr result ((batches : List (List Entry)) → IsHolding plan.now site batches disk.old → IsHolding plan.now site batches disk.new) }
{
    stop_opening(alloc, plan, site, stop, disk)?;
    open_seat(alloc, plan, site, disk)
}

/// Where there is a stop, opens a site under it, however that ends, and crashes its disk.
fn stop_opening(
    alloc: Global,
    plan: &Plan,
    site: SiteId,
    stop: Option<Stop>,
    disk: &mut MemDisk,
) -> Result<(), AllocError>
    requires accepted { IsAccepted plan.now }
    requires here { site < count_of plan.now }
    requires first { IfSome stop (λ s. 1 ≤ s.call) }
    ensures kept { (batches : List (List Entry)) → IsHolding plan.now site batches disk.old → IsHolding plan.now site batches disk.new }
{
    let Some(stop) = stop else {
        return Ok(());
    };
    let plan = plan.copy()?;
    disk.make_room(HEADED_LENGTH)?;
    disk.script(stop);
    let opening = Host::open(alloc, plan, site, JOURNAL_LIMIT, disk);
    disk.crash();
    match opening {
        Err(HostFault::NoMemory) => Err(AllocError),
        _ => Ok(()),
    }
}
