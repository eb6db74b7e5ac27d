// Schedules of several sites through `run`: requests, gets, statuses, messages, restarts and stops.
ghost use Rattle.std.specs.Prelude.{◌≡◌};

use crate::runs::run_over;
use disk_store::Bench;
use schedule_replay::replay;
use schedule_text::{Schedule, StepList, read_schedule};
use std::alloc::{AllocError, Global};
use std::test::Fail;

/// One site.
pub(crate) const ALONE: &str =
    r#"{"latency":[0],"names":["A"],"offset":[[0]],"pair":[0],"rtt":[[0]],"total":0,"version":1}"#;

/// Two sites, 100 microseconds from each other, that wait equally long.
pub(crate) const EVEN: &str =
    r#"{"latency":[100,100],"names":["A","B"],"offset":[[0,0],[0,0]],"pair":[1,0],"rtt":[[0,100],[100,0]],"total":200,"version":1}"#;

/// The same two sites; the first commits at once up to 100 half microseconds ahead.
const UNEVEN: &str =
    r#"{"latency":[0,200],"names":["A","B"],"offset":[[0,-100],[100,0]],"pair":[1,0],"rtt":[[0,100],[100,0]],"total":200,"version":1}"#;

/// Three sites of a real size.
const THREE: &str =
    r#"{"latency":[10000,50000,30000],"names":["A","B","C"],"offset":[[0,-20000,-10000],[20000,0,10000],[10000,-10000,0]],"pair":[1,2,0],"rtt":[[0,30000,20000],[30000,0,40000],[20000,40000,0]],"total":90000,"version":1}"#;

/// The steps of a schedule: `0 W 1000 x` writes x at site 0 and reading 1000, `0 R 1000 x V` writes x there after reading
/// version V of it, `1 pull 20 0` and `1 push 30 0` carry message 0, `0 get x`, `0 status 0@10`, `0 restart`.
fn step_text(alloc: Global, step: &str) -> Result<String, AllocError> {
    let words: Vec<&str> = step.split(' ').collect(alloc)?;
    match words.as_slice() {
        [site, "W", at, key] => format!(in alloc;
            "{{\"site\":{site},\"inputs\":[{{\"at\":{at},\"reads\":[],\"writes\":[[\"{key}\",\"v\"]]}}]}}"
        ),
        [site, "R", at, key, version] => format!(in alloc;
            "{{\"site\":{site},\"inputs\":[{{\"at\":{at},\"reads\":[[\"{key}\",\"{version}\"]],\"writes\":[[\"{key}\",\"v\"]]}}]}}"
        ),
        [site, "pull", at, to] => format!(in alloc;
            "{{\"site\":{site},\"inputs\":[{{\"at\":{at},\"pull\":{to}}}]}}"
        ),
        [site, "push", at, number] => format!(in alloc;
            "{{\"site\":{site},\"inputs\":[{{\"at\":{at},\"push\":{number}}}]}}"
        ),
        [site, "get", key] => format!(in alloc;
            "{{\"site\":{site},\"inputs\":[{{\"get\":\"{key}\"}}]}}"
        ),
        [site, "status", id] => format!(in alloc;
            "{{\"site\":{site},\"inputs\":[{{\"status\":\"{id}\"}}]}}"
        ),
        [site, "restart"] => format!(in alloc; "{{\"restart\":{site}}}"),
        _ => String::from_str(alloc, step),
    }
}

pub(crate) fn schedule_text(
    alloc: Global,
    plan: &str,
    steps: &[&str],
) -> Result<Vec<u8>, AllocError> {
    let mut text = format!(in alloc; "{{\"plan\":{plan},\"steps\":[")?;
    let mut first = true;
    for step in steps {
        if !first {
            text.push(',')?;
        }
        first = false;
        text.push_str(step_text(alloc, step)?.as_str())?;
    }
    text.push_str("]}")?;
    Ok(text.into_bytes())
}

#[test]
fn replays_each_schedule(rt: HostRuntime) -> Result<(), Fail> {
    let cases: [(&str, &[&str], &str); 15] = [
        // A prepared transaction commits once the other site's time has come far enough.
        (
            EVEN,
            &[
                "0 W 1000 x",
                "1 pull 999 0",
                "0 push 1000 0",
                "0 status 0@1000",
                "1 pull 1000 0",
                "0 push 1000 1",
                "0 status 0@1000",
            ],
            "0 0 prepared 0@1000\n1 1 sent 0 0\n2 0 taken\n3 0 state pending\n4 1 sent 1 0\n5 0 taken\n6 0 state committed\ncommit 0@1000\nsite 0 time 1001 log 2 pending 0\nsite 1 time 1000 log 0 pending 0\n",
        ),
        // Two that conflict, and neither was known to the other: each aborts the other's.
        (
            EVEN,
            &[
                "0 W 1000 x",
                "1 W 1000 x",
                "0 pull 1000 1",
                "1 pull 1000 0",
                "1 push 1100 0",
                "0 push 1100 1",
                "0 status 0@1000",
                "1 status 1@1000",
            ],
            "0 0 prepared 0@1000\n1 1 prepared 1@1000\n2 0 sent 0 1\n3 1 sent 1 1\n4 1 taken\n5 0 taken\n6 0 state aborted 1@1000\n7 1 state aborted 0@1000\nsite 0 time 1101 log 3 pending 0\nsite 1 time 1101 log 3 pending 0\n",
        ),
        (
            UNEVEN,
            &["0 W 100 x", "0 W 101 y"],
            "0 0 committed 0@100\n1 0 prepared 0@102\ncommit 0@100\nsite 0 time 102 log 3 pending 1\nsite 1 time 0 log 0 pending 0\n",
        ),
        (
            UNEVEN,
            &["1 W 1 x", "1 W 18446744073709551615 y"],
            "0 1 prepared 1@1\n1 1 prepared 1@4611686018427125760\nsite 0 time 0 log 0 pending 0\nsite 1 time 4611686018427125760 log 2 pending 2\n",
        ),
        // A restart keeps what the site has.
        (
            EVEN,
            &["1 pull 5000 0", "1 restart", "1 W 10 y"],
            "0 1 sent 0 0\n1 1 restarted\n2 1 prepared 1@5001\nsite 0 time 0 log 0 pending 0\nsite 1 time 5001 log 1 pending 1\n",
        ),
        // Messages come twice and in another order.
        (
            EVEN,
            &[
                "0 W 10 x",
                "0 pull 20 1",
                "0 pull 30 1",
                "1 push 40 1",
                "1 push 40 1",
                "1 push 40 0",
            ],
            "0 0 prepared 0@10\n1 0 sent 0 1\n2 0 sent 1 1\n3 1 taken\n4 1 taken\n5 1 taken\nsite 0 time 30 log 1 pending 1\nsite 1 time 40 log 1 pending 0\n",
        ),
        (
            THREE,
            &[
                "0 W 1000000 x",
                "1 pull 980000 0",
                "2 pull 990000 0",
                "0 push 1010000 0",
                "0 status 0@1000000",
                "0 push 1010000 1",
                "0 status 0@1000000",
            ],
            "0 0 prepared 0@1000000\n1 1 sent 0 0\n2 2 sent 1 0\n3 0 taken\n4 0 state pending\n5 0 taken\n6 0 state committed\ncommit 0@1000000\nsite 0 time 1010001 log 2 pending 0\nsite 1 time 980000 log 0 pending 0\nsite 2 time 990000 log 0 pending 0\n",
        ),
        // Several inputs in one batch, answered one after the other; `current` is the version as the batch begins.
        (
            ALONE,
            &[
                r#"{"site":0,"inputs":[{"at":1000,"reads":[],"writes":[["x","v1"]]},{"get":"x"}]}"#,
                "0 get y",
                "0 R 5 x current",
            ],
            "0 0 committed 0@1000\n0 0 value 0@1000 7631\n1 0 value initial -\n2 0 committed 0@1002\ncommit 0@1000\ncommit 0@1002\nsite 0 time 1003 log 4 pending 0\n",
        ),
        (
            ALONE,
            &[
                r#"{"site":0,"inputs":[{"at":1,"reads":[],"writes":[["x","v"]]},{"at":1,"reads":[["x","current"]],"writes":[]}]}"#,
            ],
            "0 0 committed 0@1\n0 0 overwritten x 0@1\ncommit 0@1\nsite 0 time 2 log 2 pending 0\n",
        ),
        // Commits of two sites in the order of their events, which is not that of their times.
        (
            UNEVEN,
            &[
                "1 W 5 y",
                "0 pull 105 1",
                "1 push 10 0",
                "1 status 1@5",
                "0 W 106 z",
                "1 pull 300 0",
                "0 push 300 1",
                "0 get y",
            ],
            "0 1 prepared 1@5\n1 0 sent 0 0\n2 1 taken\n3 1 state committed\n4 0 prepared 0@106\n5 1 sent 1 2\n6 0 taken\n7 0 value 1@5 76\ncommit 1@5\ncommit 0@106\nsite 0 time 301 log 4 pending 0\nsite 1 time 300 log 2 pending 0\n",
        ),
        // The first unfinished transaction that conflicts is named, and the first stale read before it.
        (
            EVEN,
            &[
                "1 W 10 x",
                "1 W 10 y",
                "1 R 10 x initial",
                "1 R 10 y 1@10",
                "1 W 5 z",
            ],
            "0 1 prepared 1@10\n1 1 prepared 1@11\n2 1 conflict 1@10\n3 1 overwritten y initial\n4 1 prepared 1@12\nsite 0 time 0 log 0 pending 0\nsite 1 time 12 log 3 pending 3\n",
        ),
        // A batch that was stopped before its gate was open is lost; behind that the crash decides.
        (
            ALONE,
            &[
                r#"{"site":0,"inputs":[{"at":1000,"reads":[],"writes":[["x","v1"]]}],"stop":{"call":2,"keep":"all"}}"#,
                r#"{"site":0,"inputs":[{"at":1000,"reads":[],"writes":[["x","v1"]]}],"stop":{"call":3,"keep":1}}"#,
                "0 status 0@1000",
            ],
            "0 0 lost\n1 0 kept\n2 0 state committed\ncommit 0@1000\nsite 0 time 1001 log 2 pending 0\n",
        ),
        (
            ALONE,
            &[
                r#"{"site":0,"inputs":[{"at":1000,"reads":[],"writes":[["x","v1"]]}],"stop":{"call":4,"keep":"nothing"}}"#,
                r#"{"site":0,"inputs":[{"at":1000,"reads":[],"writes":[["x","v1"]]}],"stop":{"call":4,"keep":"all"}}"#,
                "0 get x",
            ],
            "0 0 lost\n1 0 kept\n2 0 value 0@1000 7631\ncommit 0@1000\nsite 0 time 1001 log 2 pending 0\n",
        ),
        // A stopped opening leaves the journal as it was, also the first one of a site.
        (
            EVEN,
            &[
                r#"{"restart":1,"stop":{"call":2,"keep":"nothing"}}"#,
                "1 pull 5000 0",
                r#"{"restart":1,"stop":{"call":1,"keep":0}}"#,
                "1 W 10 y",
            ],
            "0 1 restarted\n1 1 sent 0 0\n2 1 restarted\n3 1 prepared 1@5001\nsite 0 time 0 log 0 pending 0\nsite 1 time 5001 log 1 pending 1\n",
        ),
        (
            EVEN,
            &["0 status 0@1", "0 status 1@1"],
            "0 0 state unknown\n1 0 state unknown\nsite 0 time 0 log 0 pending 0\nsite 1 time 0 log 0 pending 0\n",
        ),
    ];
    for (plan, steps, report) in cases {
        let input = schedule_text(rt.alloc(), plan, steps)?;
        let got = run_over(rt.alloc(), &["replay"], input, 64, &[], &[])?;
        assert_eq!(rt; got.written.as_slice(), report.as_bytes());
        assert_eq!(rt; got.status, 0);
    }
    Ok(())
}

#[test]
fn refuses_each_message_that_a_site_cannot_take(rt: HostRuntime) -> Result<(), Fail> {
    let cases: [(&[&str], &str); 5] = [
        (&["0 push 1 0"], "refused no-such-message 0\n"),
        (&["0 pull 1 1", "0 push 2 0"], "refused not-for-site 1\n"),
        // A message of the same batch is released behind it.
        (
            &[r#"{"site":0,"inputs":[{"at":1,"pull":1},{"at":1,"push":0}]}"#],
            "refused no-such-message 0\n",
        ),
        // Inputs in their order.
        (
            &[
                "0 pull 1 1",
                r#"{"site":0,"inputs":[{"at":1,"push":0},{"at":1,"push":1}]}"#,
            ],
            "refused not-for-site 1\n",
        ),
        // A kept batch releases no message.
        (
            &[
                r#"{"site":1,"inputs":[{"at":1,"pull":0}],"stop":{"call":3,"keep":"all"}}"#,
                "0 push 1 0",
            ],
            "refused no-such-message 1\n",
        ),
    ];
    for (steps, line) in cases {
        let input = schedule_text(rt.alloc(), EVEN, steps)?;
        let got = run_over(rt.alloc(), &["replay"], input, 64, &[], &[])?;
        assert_eq!(rt; got.written.as_slice(), line.as_bytes());
        assert_eq!(rt; got.status, 5);
    }
    Ok(())
}

#[test]
fn a_message_holds_64_records_and_covers_what_it_holds(rt: HostRuntime) -> Result<(), Fail> {
    let mut text = format!(in rt.alloc(); "{{\"plan\":{EVEN},\"steps\":[")?;
    for number in 1..66 {
        let step = format!(in rt.alloc();
            "{{\"site\":0,\"inputs\":[{{\"at\":1000,\"reads\":[],\"writes\":[[\"k{number}\",\"v\"]]}}]}},"
        )?;
        text.push_str(step.as_str())?;
    }
    let steps = [
        "0 pull 1000 1",
        "1 push 0 0",
        "1 pull 0 0",
        "0 push 0 1",
        "0 pull 1000 1",
    ];
    for step in steps {
        text.push_str(step_text(rt.alloc(), step)?.as_str())?;
        text.push(',')?;
    }
    text.push_str("{\"restart\":0}]}")?;
    let got = run_over(rt.alloc(), &["replay"], text.into_bytes(), 4096, &[], &[])?;
    let end =
        "65 0 sent 0 64\n66 1 taken\n67 1 sent 1 0\n68 0 taken\n69 0 sent 2 1\n70 0 restarted\nsite 0 time 1064 log 65 pending 65\nsite 1 time 0 log 64 pending 0\n";
    assert_eq!(rt; got.status, 0);
    assert!(rt; got.written.as_slice().ends_with(end.as_bytes()));
    Ok(())
}

#[test]
fn a_schedule_that_was_read_is_replayed(rt: HostRuntime) -> Result<(), Fail> {
    let input = schedule_text(rt.alloc(), ALONE, &[])?;
    let plan = read_schedule(rt.alloc(), input.as_slice())?.plan;
    let steps = StepList::new(Vec::new(rt.alloc()));
    let mut bench = Bench::new(rt.alloc())?;
    let report = replay(rt.alloc(), &Schedule { plan, steps }, &mut bench)?;
    assert_eq!(rt;
        report.text.items(),
        b"site 0 time 0 log 0 pending 0\n".as_slice()
    );
    assert_eq!(rt; (report.commits.items().len(), report.refusals), (0, 0));
    Ok(())
}
