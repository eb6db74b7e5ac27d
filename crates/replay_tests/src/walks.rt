// What stands on the first site's disk after each step of a walk, and the report at its end.
ghost use Rattle.schedule_replay.specs.Replayable.{IsReplayable};

use crate::reports::report_text;
use crate::schedules::{ALONE, batches_on, schedule, walk};
use disk_store::Bench;
use schedule_replay::replay;
use schedule_text::Schedule;
use std::alloc::Global;
use std::test::Fail;

/// How many batches the first site's disk has after each step.
pub(crate) fn batches_after_each(alloc: Global, schedule: &Schedule) -> Result<Vec<u64>, Fail>
    requires { IsReplayable schedule.now.plan schedule.now.steps }
{
    let mut counts = Vec::new(alloc);
    for before in 0..schedule.steps.items().len() {
        let mut bench = Bench::new(alloc)?;
        let _walk = walk(alloc, schedule, before + 1, &mut bench)?;
        counts.push(batches_on(alloc, &schedule.plan, &mut bench)?)?;
    }
    Ok(counts)
}

/// The report of a whole walk as text.
pub(crate) fn walked(alloc: Global, schedule: &Schedule) -> Result<String, Fail>
    requires { IsReplayable schedule.now.plan schedule.now.steps }
{
    let mut bench = Bench::new(alloc)?;
    let count = schedule.steps.items().len();
    let report = walk(alloc, schedule, count, &mut bench)?.end(alloc)?;
    report_text(alloc, &report)
}

/// A write, one that reads what it wrote, and the same again, which reads what was overwritten.
const OVERWRITTEN: &str = r#"
    {"site":0,"inputs":[{"at":1000,"reads":[],"writes":[["x","v1"]]}]},
    {"site":0,"inputs":[{"at":1000,"reads":[["x","0@1000"]],"writes":[["x","v2"]]}]},
    {"site":0,"inputs":[{"at":1000,"reads":[["x","0@1000"]],"writes":[["x","v2"]]}]}"#;

const OVERWRITTEN_REPORT: &str = "\
0 0 committed 0@1000
1 0 committed 0@1002
2 0 overwritten x 0@1002
commit 0@1000
commit 0@1002
site 0 time 1003 log 4 pending 0
0@1000 at 1001: x becomes v1 over initial
0@1002 at 1003: reads x of 0@1000, x becomes v2 over 0@1000
refusals 1
";

/// The report of a replay as text, and how many batches the first site's disk has then.
fn replayed(alloc: Global, schedule: &Schedule) -> Result<(String, u64), Fail>
    requires { IsReplayable schedule.now.plan schedule.now.steps }
{
    let mut bench = Bench::new(alloc)?;
    let report = replay(alloc, schedule, &mut bench)?;
    let batches = batches_on(alloc, &schedule.plan, &mut bench)?;
    Ok((report_text(alloc, &report)?, batches))
}

#[test]
fn a_walk_and_a_replay_report_the_same(rt: HostRuntime) -> Result<(), Fail> {
    let alloc = rt.alloc();
    let schedule = schedule(alloc, ALONE, OVERWRITTEN)?;
    let told = (
        walked(alloc, &schedule)?,
        batches_after_each(alloc, &schedule)?,
        replayed(alloc, &schedule)?,
    );
    let report = String::from_str(alloc, OVERWRITTEN_REPORT)?;
    let wanted = (report.clone()?, vec![in alloc; 1, 2, 3]?, (report, 3));
    assert_eq!(rt; told, wanted);
    Ok(())
}

/// A write that is lost, the same one that is kept, and the question what became of it.
const STOPPED: &str = r#"
    {"site":0,"inputs":[{"at":1000,"reads":[],"writes":[["x","v1"]]}],"stop":{"call":2,"keep":"all"}},
    {"site":0,"inputs":[{"at":1000,"reads":[],"writes":[["x","v1"]]}],"stop":{"call":3,"keep":1}},
    {"site":0,"inputs":[{"status":"0@1000"}]}"#;

const STOPPED_REPORT: &str = "\
0 0 lost
1 0 kept
2 0 state committed
commit 0@1000
site 0 time 1001 log 2 pending 0
0@1000 at 1001: x becomes v1 over initial
refusals 0
";

#[test]
fn a_kept_batch_is_on_the_disk_and_a_lost_one_is_not(rt: HostRuntime) -> Result<(), Fail> {
    let alloc = rt.alloc();
    let schedule = schedule(alloc, ALONE, STOPPED)?;
    let told = (
        walked(alloc, &schedule)?,
        batches_after_each(alloc, &schedule)?,
    );
    let report = String::from_str(alloc, STOPPED_REPORT)?;
    assert_eq!(rt; told, (report, vec![in alloc; 0, 1, 1]?));
    Ok(())
}
