//! A batch of a replay: its site's host takes it, and the replies or the stop are told.
ghost use Rattle.std.specs.Prelude.{◌≡◌, ◌<◌, List, Some, None, IfOk, OnErr, OnOk};
ghost use Rattle.helios_model.specs.declared.entries.Entry.{Entry};
ghost use Rattle.helios_model.specs.Plans.{PlanData, IsAccepted, count_of};
ghost use Rattle.node_journal.specs.Appending.{is_kept};
ghost use Rattle.schedule_text.specs.declared.planned.Planned.{Planned};
ghost use Rattle.schedule_text.specs.declared.steps.Step.{Step};
ghost use Rattle.schedule_text.specs.declared.steps.Step.TheVariants.{Batch};
ghost use Rattle.schedule_replay.specs.Progress.{progress};
ghost use Rattle.schedule_replay.specs.Seats.{IsHolding, IsSeated};
ghost use Rattle.schedule_replay.specs.Standing.{IsBatchAt, IsBegun, IsBetween, IsHeld, IsPlaced, IsSomeBatch, IsSomeHeld};

use crate::entries::entries_for;
use crate::host_laws::host_laws;
use crate::output::Output;
use crate::seats::{open_seat, run_batch, stop_batch};
use crate::taken::Taken;
use disk_store::{Keep, MemDisk, Stop};
use helios_model::{Entries, Plan, SiteId};
use node_host::{Batched, Host, Opened, frame_length};
use protocol_laws::{
    batch_moves_one_node, each_record_is_spellable, each_reply_is_spellable, each_sent_is_message,
};
use schedule_text::Planned;
use std::alloc::{AllocError, Global};

/// Whether a crash after this stop of a batch leaves it in the journal.
fn is_kept(stop: Stop) -> bool
    ensures { result ≡ is_kept stop.call stop.keep }
{
    match stop.keep {
        Keep::All => 3 <= stop.call,
        Keep::Nothing => false,
        Keep::Byte(byte) => 3 <= stop.call && byte == 1,
    }
}

/// The host of a site, which is opened where no step named the site before.
fn host_of(
    alloc: Global,
    plan: &Plan,
    site: SiteId,
    held: Option<Host>,
    disk: &mut MemDisk,
) -> Result<Host, AllocError>
    requires accepted { IsAccepted plan.now }
    requires here { site < count_of plan.now }
    requires held { IsSomeHeld plan.now site held disk.old }
    ensures seated { IfOk result (λ host. (batches : List (List Entry)) → IsHeld plan.now site batches held disk.old → IsSeated plan.now site batches host disk.new) }
    ensures kept { OnErr result ((batches : List (List Entry)) → IsHeld plan.now site batches held disk.old → IsHolding plan.now site batches disk.new) }
{
    match held {
        Some(host) => Ok(host),
        None => {
            let Opened { host, .. } = open_seat(alloc, plan, site, disk)?;
            Ok(host)
        }
    }
}

/// Runs a batch, and tells the replies.
fn run(
    alloc: Global,
    plan: &Plan,
    number: u64,
    site: SiteId,
    host: Host,
    entries: Entries,
    disk: &mut MemDisk,
    output: &mut Output,
) -> Result<Taken, AllocError>
    requires { IsSomeBatch plan.now number site None host entries disk.old output.old }
    ensures placed { IfOk result (λ after. (steps : List Step) (inputs : List Planned) → IsBatchAt plan.now steps number site inputs None host entries disk.old output.old
        → IsPlaced plan.now (progress plan.now steps) (Batch site inputs None) after disk.new output.new) }
    ensures between { OnErr result ((steps : List Step) (inputs : List Planned) → IsBatchAt plan.now steps number site inputs None host entries disk.old output.old
        → IsBetween plan.now (progress plan.now steps) (Batch site inputs None) disk.new) }
{
    host_laws();
    batch_moves_one_node();
    each_record_is_spellable();
    each_sent_is_message();
    each_reply_is_spellable();
    let Batched {
        host,
        replies,
        commits,
    } = run_batch(alloc, host, entries, disk)?;
    output.tell_all(alloc, number, site, replies.into_items())?;
    Ok(Taken {
        host,
        commits,
        are_new: true,
    })
}

/// Runs a batch whose seal stops, and tells whether the crash kept it.
fn run_stopped(
    alloc: Global,
    plan: &Plan,
    number: u64,
    site: SiteId,
    host: Host,
    entries: Entries,
    stop: Stop,
    disk: &mut MemDisk,
    output: &mut Output,
) -> Result<Taken, AllocError>
    requires { IsSomeBatch plan.now number site (Some stop) host entries disk.old output.old }
    ensures placed { IfOk result (λ after. (steps : List Step) (inputs : List Planned) → IsBatchAt plan.now steps number site inputs (Some stop) host entries disk.old output.old
        → IsPlaced plan.now (progress plan.now steps) (Batch site inputs (Some stop)) after disk.new output.new) }
    ensures between { OnErr result ((steps : List Step) (inputs : List Planned) → IsBatchAt plan.now steps number site inputs (Some stop) host entries disk.old output.old
        → IsBetween plan.now (progress plan.now steps) (Batch site inputs (Some stop)) disk.new) }
{
    host_laws();
    batch_moves_one_node();
    each_record_is_spellable();
    each_sent_is_message();
    let Opened { host, last, .. } = stop_batch(alloc, plan, host, entries, stop, disk)?;
    let are_new = is_kept(stop);
    output.tell_stopped(number, site, are_new)?;
    Ok(Taken {
        host,
        commits: last,
        are_new,
    })
}

/// Runs a batch at its site.
pub(crate) fn take_batch(
    alloc: Global,
    plan: &Plan,
    number: u64,
    site: SiteId,
    inputs: &[Planned],
    stop: Option<Stop>,
    held: Option<Host>,
    disk: &mut MemDisk,
    output: &mut Output,
) -> Result<Taken, AllocError>
    requires { (steps : List Step) × IsBegun plan.now steps number (Batch site inputs.now stop) held disk.old output.old }
    ensures placed { IfOk result (λ after. (steps : List Step) → IsBegun plan.now steps number (Batch site inputs.now stop) held disk.old output.old
        → IsPlaced plan.now (progress plan.now steps) (Batch site inputs.now stop) after disk.new output.new) }
    ensures between { OnErr result ((steps : List Step) → IsBegun plan.now steps number (Batch site inputs.now stop) held disk.old output.old
        → IsBetween plan.now (progress plan.now steps) (Batch site inputs.now stop) disk.new) }
{
    host_laws();
    batch_moves_one_node();
    each_record_is_spellable();
    each_sent_is_message();
    let host = host_of(alloc, plan, site, held, disk)?;
    let entries = entries_for(alloc, &host, output.sent.as_slice(), inputs)?;
    let entries = Entries::new(entries);
    output.count(frame_length(&entries));
    match stop {
        None => run(alloc, plan, number, site, host, entries, disk, output),
        Some(stop) => run_stopped(alloc, plan, number, site, host, entries, stop, disk, output),
    }
}
