// Schedules, and walks through their first steps.
ghost use Rattle.std.specs.Prelude.{◌≤◌, IfOk, length};
ghost use Rattle.helios_model.specs.Plans.{IsAccepted};
ghost use Rattle.schedule_replay.specs.Replayable.{IsReplayable};

use disk_store::Bench;
use helios_model::{Plan, SiteId};
use node_host::Host;
use schedule_replay::{ReplayRefusal, Walk};
use schedule_text::{Schedule, read_schedule};
use std::alloc::Global;
use std::test::Fail;

/// One site.
pub(crate) const ALONE: &str =
    r#"{"latency":[0],"names":["A"],"offset":[[0]],"pair":[0],"rtt":[[0]],"total":0,"version":1}"#;

/// Two sites, 100 microseconds from each other, that wait equally long.
pub(crate) const EVEN: &str =
    r#"{"latency":[100,100],"names":["A","B"],"offset":[[0,0],[0,0]],"pair":[1,0],"rtt":[[0,100],[100,0]],"total":200,"version":1}"#;

/// The schedule of a plan and of steps, as their texts say.
pub(crate) fn schedule(alloc: Global, plan: &str, steps: &str) -> Result<Schedule, Fail>
    ensures { IfOk result (λ s. IsReplayable s.plan s.steps) }
{
    let text = format!(in alloc; "{{\"plan\":{plan},\"steps\":[{steps}]}}")?;
    Ok(read_schedule(alloc, text.as_bytes())?)
}

/// Takes the first steps of a schedule, so many, over the bench.
pub(crate) fn walk(
    alloc: Global,
    schedule: &Schedule,
    taken: usize,
    bench: &mut Bench,
) -> Result<Walk, ReplayRefusal>
    requires replayable { IsReplayable schedule.now.plan schedule.now.steps }
    requires few { taken ≤ length schedule.now.steps }
{
    let steps = schedule.steps.items();
    let mut walk = Walk::start(alloc, &schedule.plan, bench)?;
    for number in 0..taken {
        walk = walk.step(alloc, &steps[number], bench)?;
    }
    Ok(walk)
}

/// The greatest length of a journal, in bytes.
const LIMIT: u64 = 1 << 40;

/// How many batches an opening of the first site finds on its disk of the bench.
pub(crate) fn batches_on(alloc: Global, plan: &Plan, bench: &mut Bench) -> Result<u64, Fail>
    requires accepted { IsAccepted plan.now }
{
    if plan.count() == 0 {
        return Err(Fail::from("a site"));
    }
    let first = SiteId::of(0);
    let opened = Host::open(alloc, plan.copy()?, first, LIMIT, bench.disk(first))?;
    Ok(opened.batches)
}
