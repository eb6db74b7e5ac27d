//! The replay of a schedule: a walk through its steps.
ghost use Rattle.std.specs.Prelude.{◌≡◌, IfOk, OnOk};
ghost use Rattle.helios_model.specs.Serial.{IsSerial};
ghost use Rattle.helios_model.specs.World.{StepsReach};
ghost use Rattle.protocol_laws.specs.Safe.{IsSafe};
ghost use Rattle.schedule_replay.specs.Progress.{reached};
ghost use Rattle.schedule_replay.specs.Replay.{Replays};
ghost use Rattle.schedule_replay.specs.Replayable.{IsReplayable};

use crate::refusal::ReplayRefusal;
use crate::report::Report;
use crate::walk::Walk;
use disk_store::Bench;
use protocol_laws::each_world_is_safe;
use schedule_text::Schedule;
use std::alloc::Global;

/// Takes the cluster of a plan through the steps of a schedule, from the first world on, each site over its disk of the bench, which is made
/// empty first. Each step is tested before it is run.
pub fn replay(
    alloc: Global,
    schedule: &Schedule,
    bench: &mut Bench,
) -> Result<Report, ReplayRefusal>
    requires { IsReplayable schedule.now.plan schedule.now.steps }
    ensures replays { Replays schedule.now.plan schedule.now.steps bench.new result }
    ensures reached { OnOk result (StepsReach schedule.now.plan (reached schedule.now.plan schedule.now.steps)) }
    ensures safe { OnOk result (IsSafe schedule.now.plan (reached schedule.now.plan schedule.now.steps)) }
    ensures serial { IfOk result (λ report. IsSerial report.commits) }
{
    each_world_is_safe();
    let mut walk = Walk::start(alloc, &schedule.plan, bench)?;
    for step in schedule.steps.items() {
        walk = walk.step(alloc, step, bench)?;
    }
    let report = walk.end(alloc)?;
    Ok(report)
}
