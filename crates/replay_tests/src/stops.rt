// Each stop of a batch and of a restart, with all that a crash may keep.
use crate::schedules::{ALONE, schedule};
use crate::walks::{batches_after_each, walked};
use std::alloc::{AllocError, Global};
use std::test::Fail;

/// What a crash keeps.
const KEEPS: [&str; 5] = [r#""all""#, r#""nothing""#, "0", "1", "255"];

/// The report of a schedule as text, and how many batches stand on the disk after each of its steps.
type Told = (String, Vec<u64>);

fn told(alloc: Global, steps: &str) -> Result<Told, Fail> {
    let schedule = schedule(alloc, ALONE, steps)?;
    let report = walked(alloc, &schedule)?;
    Ok((report, batches_after_each(alloc, &schedule)?))
}

fn telling(alloc: Global, report: &str, batches: &[u64]) -> Result<Told, AllocError> {
    Ok((String::from_str(alloc, report)?, batches.to_vec(alloc)?))
}

/// A write, two that stop at a call, and the question what became of the first of the two.
fn stopped_batch(alloc: Global, call: u8, keep: &str) -> Result<Told, Fail> {
    let steps = format!(in alloc;
        "{{\"site\":0,\"inputs\":[{{\"at\":10,\"reads\":[],\"writes\":[[\"w\",\"u\"]]}}]}},
        {{\"site\":0,\"inputs\":[{{\"at\":1000,\"reads\":[],\"writes\":[[\"x\",\"v\"]]}},{{\"at\":1000,\"reads\":[],\"writes\":[[\"y\",\"v\"]]}}],
          \"stop\":{{\"call\":{call},\"keep\":{keep}}}}},
        {{\"site\":0,\"inputs\":[{{\"status\":\"0@1000\"}}]}}"
    )?;
    told(alloc, steps.as_str())
}

const LOST: &str = "\
0 0 committed 0@10
1 0 lost
2 0 state unknown
commit 0@10
site 0 time 11 log 2 pending 0
0@10 at 11: w becomes u over initial
refusals 0
";

const KEPT: &str = "\
0 0 committed 0@10
1 0 kept
2 0 state committed
commit 0@10
commit 0@1000
commit 0@1002
site 0 time 1003 log 6 pending 0
0@10 at 11: w becomes u over initial
0@1000 at 1001: x becomes v over initial
0@1002 at 1003: y becomes v over initial
refusals 0
";

/// For each call, whether the batch is kept by what a crash keeps.
const IS_KEPT: [[bool; 5]; 4] = [
    [false, false, false, false, false],
    [false, false, false, false, false],
    [true, false, false, true, false],
    [true, false, false, true, false],
];

fn stopped_batches(alloc: Global) -> Result<Vec<Told>, Fail> {
    let mut all = Vec::new(alloc);
    for call in 1..5 {
        for keep in KEEPS {
            all.push(stopped_batch(alloc, call, keep)?)?;
        }
    }
    Ok(all)
}

fn wanted_batches(alloc: Global) -> Result<Vec<Told>, AllocError> {
    let mut all = Vec::new(alloc);
    for row in IS_KEPT {
        for is_kept in row {
            all.push(if is_kept {
                telling(alloc, KEPT, &[1, 2, 2])?
            } else {
                telling(alloc, LOST, &[1, 1, 1])?
            })?;
        }
    }
    Ok(all)
}

#[test]
fn a_stopped_batch_is_lost_or_kept_by_its_call_and_by_the_crash(
    rt: HostRuntime,
) -> Result<(), Fail> {
    let alloc = rt.alloc();
    assert_eq!(rt; stopped_batches(alloc)?, wanted_batches(alloc)?);
    Ok(())
}

/// A restart that stops at a call, and a write.
fn stopped_first(alloc: Global, call: u8, keep: &str) -> Result<Told, Fail> {
    let steps = format!(in alloc;
        "{{\"restart\":0,\"stop\":{{\"call\":{call},\"keep\":{keep}}}}},
        {{\"site\":0,\"inputs\":[{{\"at\":1000,\"reads\":[],\"writes\":[[\"x\",\"v\"]]}}]}}"
    )?;
    told(alloc, steps.as_str())
}

const FIRST: &str = "\
0 0 restarted
1 0 committed 0@1000
commit 0@1000
site 0 time 1001 log 2 pending 0
0@1000 at 1001: x becomes v over initial
refusals 0
";

/// A restart that stops at a call between two writes.
fn stopped_second(alloc: Global, call: u8, keep: &str) -> Result<Told, Fail> {
    let steps = format!(in alloc;
        "{{\"site\":0,\"inputs\":[{{\"at\":10,\"reads\":[],\"writes\":[[\"w\",\"u\"]]}}]}},
        {{\"restart\":0,\"stop\":{{\"call\":{call},\"keep\":{keep}}}}},
        {{\"site\":0,\"inputs\":[{{\"at\":1000,\"reads\":[],\"writes\":[[\"x\",\"v\"]]}}]}}"
    )?;
    told(alloc, steps.as_str())
}

const SECOND: &str = "\
0 0 committed 0@10
1 0 restarted
2 0 committed 0@1000
commit 0@10
commit 0@1000
site 0 time 1001 log 4 pending 0
0@10 at 11: w becomes u over initial
0@1000 at 1001: x becomes v over initial
refusals 0
";

fn stopped_restarts(alloc: Global) -> Result<Vec<(Told, Told)>, Fail> {
    let mut all = Vec::new(alloc);
    for call in 1..9 {
        for keep in KEEPS {
            let first = stopped_first(alloc, call, keep)?;
            all.push((first, stopped_second(alloc, call, keep)?))?;
        }
    }
    Ok(all)
}

/// Each of the restarts leaves the journal as it was.
fn wanted_restarts(alloc: Global) -> Result<Vec<(Told, Told)>, AllocError> {
    let mut all = Vec::new(alloc);
    for _ in 0..40 {
        let first = telling(alloc, FIRST, &[0, 1])?;
        all.push((first, telling(alloc, SECOND, &[1, 1, 2])?))?;
    }
    Ok(all)
}

#[test]
fn a_stopped_restart_leaves_the_journal_as_it_was(rt: HostRuntime) -> Result<(), Fail> {
    let alloc = rt.alloc();
    assert_eq!(rt; stopped_restarts(alloc)?, wanted_restarts(alloc)?);
    Ok(())
}
