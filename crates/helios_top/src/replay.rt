ghost use Rattle.std.specs.Prelude.{◌≡◌, IfOk, All};
ghost use Rattle.helios_model.specs.Serial.{IsSerial};
ghost use Rattle.history_audit.specs.Printing.{IsDated};
ghost use Rattle.schedule_replay.specs.Replayable.{IsReplayable};
ghost use Rattle.helios_top.specs.Benches.{ReplayLeavesOver};
ghost use Rattle.helios_top.specs.Ending.{RefusedOr, end_of};
ghost use Rattle.helios_top.specs.Refusals.{replay_refusal, replay_refusal_in};
ghost use Rattle.helios_top.specs.Replays.{IsLeftBy, IsReplayed, IsScheduleAnswer, PassesAudit, text_told};
ghost use Rattle.schedule_text.specs.Reading.{schedule_of_text};

use crate::ending::joined;
use crate::{Ending, Refusal};
use disk_store::Bench;
use helios_model::Bytes;
use history_audit::{each_serial_history_passes, print_history};
use protocol_laws::each_commit_is_spellable;
use schedule_replay::{ReplayRefusal, Report, replay};
use schedule_text::{Schedule, ScheduleRefusal, read_schedule};
use sha2::{Digest, Sha256};
use std::alloc::{AllocError, Global};

/// What is printed of a replay.
#[derive(Clone, Copy, Debug, PartialEq, Eq)]
pub enum Told {
    /// Its report.
    Report,
    /// The history of its commits.
    History,
    /// How many commits and refusals it has, and the digest of its report, under a number.
    Summary(u64),
}

/// What is told of the replay of the schedule that the text is, each site over its disk of the bench.
pub(crate) fn answer(
    alloc: Global,
    told: Told,
    text: &[u8],
    bench: &mut Bench,
) -> Result<Ending, AllocError>
    ensures ends { IfOk result (λ ending. RefusedOr (replay_refusal_in (schedule_of_text text.now)) ending (IsScheduleAnswer told ending text.now)) }
    ensures leaves { ReplayLeavesOver told text.now bench.old bench.new (end_of result) }
{
    match read_schedule(alloc, text) {
        Ok(schedule) => answer_schedule(alloc, told, &schedule, bench),
        Err(ScheduleRefusal::NoMemory) => Err(AllocError),
        Err(refusal) => Ok(Ending::Refused(Refusal::OfSchedule(refusal))),
    }
}

/// What is told of the replay of a schedule.
#[tactic(auto, using(crate::proofs::Replays::told_ends, crate::proofs::Replays::told_leaves))]
pub(crate) fn answer_schedule(
    alloc: Global,
    told: Told,
    schedule: &Schedule,
    bench: &mut Bench,
) -> Result<Ending, AllocError>
    requires { IsReplayable schedule.now.plan schedule.now.steps }
    ensures ends { IfOk result (λ ending. RefusedOr (replay_refusal schedule.now) ending (IsReplayed told schedule.now ending)) }
    ensures leaves { IsLeftBy told schedule.now bench.new (end_of result) }
{
    each_commit_is_spellable();
    each_serial_history_passes();
    match replay(alloc, schedule, bench) {
        Ok(report) => Ok(Ending::Printed(text_of(alloc, told, report)?)),
        Err(ReplayRefusal::NoMemory) => Err(AllocError),
        Err(refusal) => Ok(Ending::Refused(Refusal::OfReplay(refusal))),
    }
}

/// What is printed of a report.
fn text_of(alloc: Global, told: Told, report: Report) -> Result<Bytes, AllocError>
    ensures text { IfOk result (λ text. text ≡ text_told told report) }
    ensures audited { IfOk result (λ _. told ≡ Told.History → IsSerial report.commits → All IsDated report.commits → PassesAudit report.commits) }
{
    each_serial_history_passes();
    match told {
        Told::Report => Ok(report.text),
        Told::History => print_history(alloc, &report.commits),
        Told::Summary(number) => summary(alloc, number, &report),
    }
}

fn summary(alloc: Global, number: u64, report: &Report) -> Result<Bytes, AllocError>
    ensures { IfOk result (λ text. text ≡ text_told (Told.Summary number) report.now) }
{
    let commits = report.commits.items().len();
    let refusals = report.refusals;
    let digest = hex::encode(alloc, &Sha256::digest(report.text.items()))?;
    let counts = format!(in alloc;
        "trial {number} steps 4000 commits {commits} refusals {refusals} digest "
    )?;
    let line = joined(alloc, counts.as_bytes(), digest.as_bytes(), b"\n")?;
    Ok(line)
}
