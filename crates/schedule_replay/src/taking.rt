//! A step of a replay at its site: a batch, or a restart.
ghost use Rattle.std.specs.Prelude.{◌≡◌, List, IfOk, OnErr, is_some, if◌then◌else◌};
ghost use Rattle.schedule_text.specs.declared.steps.Step.{Step};
ghost use Rattle.schedule_text.specs.declared.steps.Step.TheVariants.{Restart};
ghost use Rattle.schedule_replay.specs.Progress.{progress};
ghost use Rattle.schedule_replay.specs.Standing.{IsBegun, IsBetween, IsPart, IsPlaced};

use crate::batches::take_batch;
use crate::output::Output;
use crate::seats::restart_seat;
use crate::taken::Taken;
use disk_store::{MemDisk, Stop};
use helios_model::{Plan, SiteId};
use node_host::{Host, Opened};
use schedule_text::Step;
use std::alloc::{AllocError, Global};

/// How many bytes the head of a journal adds, where its site is opened first.
fn head_size(held: &Option<Host>) -> u64
    ensures { result ≡ (if is_some held.now then 0 else 39) }
{
    match held {
        Some(_) => 0,
        None => 39,
    }
}

/// Opens a site again, and drops its host.
fn restart(
    alloc: Global,
    plan: &Plan,
    number: u64,
    site: SiteId,
    stop: Option<Stop>,
    held: Option<Host>,
    disk: &mut MemDisk,
    output: &mut Output,
) -> Result<Taken, AllocError>
    requires { (steps : List Step) × IsBegun plan.now steps number (Restart site stop) held disk.old output.old }
    ensures placed { IfOk result (λ after. (steps : List Step) → IsBegun plan.now steps number (Restart site stop) held disk.old output.old
        → IsPlaced plan.now (progress plan.now steps) (Restart site stop) after disk.new output.new) }
    ensures between { OnErr result ((steps : List Step) → IsBegun plan.now steps number (Restart site stop) held disk.old output.old
        → IsBetween plan.now (progress plan.now steps) (Restart site stop) disk.new) }
{
    drop(held);
    let Opened { host, last, .. } = restart_seat(alloc, plan, site, stop, disk)?;
    output.tell_restart(number, site)?;
    Ok(Taken {
        host,
        commits: last,
        are_new: false,
    })
}

/// Takes a step at its site, which has this host where a step named it before.
pub(crate) fn take_step(
    alloc: Global,
    plan: &Plan,
    number: u64,
    step: &Step,
    held: Option<Host>,
    disk: &mut MemDisk,
    output: &mut Output,
) -> Result<Taken, AllocError>
    requires { (steps : List Step) × IsPart plan.now steps number step.now held disk.old output.old }
    ensures placed { IfOk result (λ after. (steps : List Step) → IsPart plan.now steps number step.now held disk.old output.old
        → IsPlaced plan.now (progress plan.now steps) step.now after disk.new output.new) }
    ensures between { OnErr result ((steps : List Step) → IsPart plan.now steps number step.now held disk.old output.old
        → IsBetween plan.now (progress plan.now steps) step.now disk.new) }
{
    output.count(head_size(&held));
    match step {
        Step::Batch { site, inputs, stop } => take_batch(
            alloc,
            plan,
            number,
            *site,
            inputs.items(),
            *stop,
            held,
            disk,
            output,
        ),
        Step::Restart { site, stop } => {
            restart(alloc, plan, number, *site, *stop, held, disk, output)
        }
    }
}
