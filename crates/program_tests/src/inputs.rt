use crate::runs::{EMPTY, run_over};
use std::alloc::{AllocError, Global};
use std::test::Fail;

/// The status and the line of a command over a text.
fn line_of(alloc: Global, word: &str, input: Vec<u8>) -> Result<(u8, Vec<u8>), AllocError> {
    let got = run_over(alloc, &[word], input, 7, &[], &[])?;
    Ok((got.status, got.written))
}

#[test]
fn refuses_each_text(rt: HostRuntime) -> Result<(), Fail> {
    let cases = [
        ("replay", "", "refused not-json\n"),
        ("replay", "[", "refused not-json\n"),
        ("replay", "[]", "refused bad-shape\n"),
        ("replay", r#"{"plan":1}"#, "refused bad-shape\n"),
        (
            "replay",
            r#"{"plan":1,"steps":[]}"#,
            "refused plan bad-field plan\n",
        ),
        (
            "replay",
            r#"{"plan":{"latency":[0,0],"names":["A","B"],"offset":[[0,-1],[-1,0]],"pair":[1,0],"rtt":[[0,1],[1,0]],"total":0,"version":1},"steps":[0]}"#,
            "refused short-pair 0 1\n",
        ),
        ("check", "", "refused not-json\n"),
        ("check", "[]", "refused bad-field plan\n"),
        ("check", "{}", "refused bad-field version\n"),
        ("check", r#"{"version":1}"#, "refused bad-field names\n"),
        ("plan", "", "refused not-json\n"),
        ("plan", "{}", "refused bad-shape\n"),
        ("plan", r#"{"names":[],"rtt":[]}"#, "refused site-count 0\n"),
        (
            "plan",
            r#"{"names":[""],"rtt":[[0]]}"#,
            "refused bad-name 0\n",
        ),
        ("plan", r#"{"names":["A"],"rtt":[]}"#, "refused bad-row 0\n"),
        (
            "plan",
            r#"{"names":["A"],"rtt":[[1]]}"#,
            "refused diagonal 0\n",
        ),
    ];
    for (word, input, line) in cases {
        let input = input.as_bytes().to_vec(rt.alloc())?;
        let got = line_of(rt.alloc(), word, input)?;
        assert_eq!(rt; got.0, 5, "{line}");
        assert_eq!(rt; got.1.as_slice(), line.as_bytes(), "{line}");
    }
    let no_text = line_of(rt.alloc(), "replay", vec![in rt.alloc(); 255u8]?)?;
    assert_eq!(rt; no_text.0, 5);
    Ok(())
}

/// A plan of two sites with these fields.
fn plan_text(
    alloc: Global,
    rtt: &str,
    latency: &str,
    offset: &str,
    pair: &str,
    total: &str,
) -> Result<Vec<u8>, AllocError> {
    let text = format!(in alloc;
        "{{\"latency\":{latency},\"names\":[\"A\",\"B\"],\"offset\":{offset},\"pair\":{pair},\"rtt\":{rtt},\"total\":{total},\"version\":1}}"
    )?;
    Ok(text.into_bytes())
}

#[test]
fn judges_each_plan(rt: HostRuntime) -> Result<(), Fail> {
    let trips = "[[0,2],[2,0]]";
    let even = "[[0,0],[0,0]]";
    let far = "[[0,1000000001],[1000000001,0]]";
    let cases = [
        (trips, "[2,2]", even, "[1,0]", "4", 0, "optimal 4\n"),
        (
            trips,
            "[2,1]",
            "[[0,0],[-1,0]]",
            "[1,0]",
            "3",
            9,
            "short 0 1\n",
        ),
        (
            trips,
            "[3,2]",
            "[[0,1],[0,0]]",
            "[1,0]",
            "5",
            9,
            "value-differs 5 4\n",
        ),
        (trips, "[2,2]", even, "[1,1]", "4", 9, "no-pairing 1\n"),
        (
            "0",
            "[2,2]",
            even,
            "[1,0]",
            "4",
            5,
            "refused bad-field rtt\n",
        ),
        (
            trips,
            "[2]",
            even,
            "[1,0]",
            "4",
            5,
            "refused bad-field latency\n",
        ),
        (
            trips,
            "[2,2]",
            "[]",
            "[1,0]",
            "4",
            5,
            "refused bad-field offset\n",
        ),
        (
            trips,
            "[2,2]",
            even,
            "[1]",
            "4",
            5,
            "refused bad-field pair\n",
        ),
        (
            trips,
            "[2,2]",
            even,
            "[1,0]",
            "-1",
            5,
            "refused bad-field total\n",
        ),
        (far, "[2,2]", even, "[1,0]", "4", 5, "refused limit rtt\n"),
        (
            trips,
            "[2,2000000001]",
            even,
            "[1,0]",
            "4",
            5,
            "refused limit latency\n",
        ),
        (
            trips,
            "[2,2]",
            even,
            "[1,32]",
            "4",
            5,
            "refused limit pair\n",
        ),
        (
            trips,
            "[2,2]",
            "[[0,0],[1,0]]",
            "[1,0]",
            "4",
            5,
            "refused offset-differs 1 0\n",
        ),
        (
            trips,
            "[2,2]",
            even,
            "[1,0]",
            "5",
            5,
            "refused total-differs 5 4\n",
        ),
    ];
    for (rtt, latency, offset, pair, total, status, line) in cases {
        let input = plan_text(rt.alloc(), rtt, latency, offset, pair, total)?;
        let got = line_of(rt.alloc(), "check", input)?;
        assert_eq!(rt; got.0, status, "{line}");
        assert_eq!(rt; got.1.as_slice(), line.as_bytes(), "{line}");
    }
    Ok(())
}

/// What the plan of two sites with these round trips is judged to be, or the line that refuses the matrix.
fn judged_plan(alloc: Global, rtt: &str) -> Result<Vec<u8>, AllocError> {
    let matrix = format!(in alloc; "{{\"names\":[\"A\",\"B\"],\"rtt\":{rtt}}}")?;
    let planned = line_of(alloc, "plan", matrix.into_bytes())?;
    if planned.0 != 0 {
        return Ok(planned.1);
    }
    let judged = line_of(alloc, "check", planned.1)?;
    Ok(judged.1)
}

#[test]
fn plans_each_matrix(rt: HostRuntime) -> Result<(), Fail> {
    let cases = [
        ("[[0,2],[2,0]]", "optimal 4\n"),
        ("[[0,1000000000],[1000000000,0]]", "optimal 2000000000\n"),
        ("[[0,1000000001],[1000000001,0]]", "refused too-long 0 1\n"),
        ("[[0,30],[31,0]]", "refused not-symmetric 0 1\n"),
    ];
    for (rtt, line) in cases {
        let got = judged_plan(rt.alloc(), rtt)?;
        assert_eq!(rt; got.as_slice(), line.as_bytes(), "{rtt}");
    }
    Ok(())
}

/// The schedule of one site with these steps.
fn schedule_text(alloc: Global, steps: &str) -> Result<Vec<u8>, AllocError> {
    let front = EMPTY.strip_suffix("]}").unwrap_or(EMPTY);
    let text = format!(in alloc; "{front}{steps}]}}")?;
    Ok(text.into_bytes())
}

/// A step of one request with these reads and writes.
fn step_text(alloc: Global, reads: &str, writes: &str) -> Result<String, AllocError> {
    format!(in alloc;
        "{{\"site\":0,\"inputs\":[{{\"at\":1000,\"reads\":[{reads}],\"writes\":[{writes}]}}]}}"
    )
}

#[test]
fn replays_requests(rt: HostRuntime) -> Result<(), Fail> {
    let first = step_text(rt.alloc(), "", r#"["x","v1"]"#)?;
    let second = step_text(rt.alloc(), r#"["x","0@1000"]"#, r#"["x","v2"]"#)?;
    let steps = format!(in rt.alloc(); "{first},{second},{second}")?;
    let got = line_of(
        rt.alloc(),
        "replay",
        schedule_text(rt.alloc(), steps.as_str())?,
    )?;
    let report =
        "0 0 committed 0@1000\n1 0 committed 0@1002\n2 0 overwritten x 0@1002\ncommit 0@1000\ncommit 0@1002\nsite 0 time 1003 log 4 pending 0\n";
    assert_eq!(rt; got.0, 0);
    assert_eq!(rt; got.1.as_slice(), report.as_bytes());
    Ok(())
}

#[test]
fn takes_each_form_and_no_other(rt: HostRuntime) -> Result<(), Fail> {
    let cases = [
        (
            r#"["a","initial"],["b","31@4611686018427387904"]"#,
            r#"["a",""]"#,
            0,
        ),
        (r#"["a","current"]"#, "", 0),
        (r#"["a","0@0"]"#, "", 5),
        (r#"["a","0@01"]"#, "", 5),
        (r#"["a","32@1"]"#, "", 5),
        (r#"["a","+0@1"]"#, "", 5),
        (r#"["a","0@4611686018427387905"]"#, "", 5),
        (r#"["a","initial"],["a","0@1"]"#, "", 5),
        (r#"["a","initial",1]"#, "", 5),
        ("", r#"["a=","1"]"#, 5),
        ("", r#"["","1"]"#, 5),
        ("", r#"["a","1"],["b","1"],["a","2"]"#, 5),
        ("", r#"["a",1]"#, 5),
    ];
    for (reads, writes, status) in cases {
        let step = step_text(rt.alloc(), reads, writes)?;
        let got = line_of(
            rt.alloc(),
            "replay",
            schedule_text(rt.alloc(), step.as_str())?,
        )?;
        assert_eq!(rt; got.0, status, "{step}");
    }
    Ok(())
}

#[test]
fn takes_no_other_step(rt: HostRuntime) -> Result<(), Fail> {
    let cases = [
        r#"{"site":1,"inputs":[{"at":1,"reads":[],"writes":[]}]}"#,
        r#"{"site":0,"inputs":[]}"#,
        r#"{"site":0,"inputs":[{"at":1,"reads":[],"writes":[]}],"stop":null}"#,
        r#"{"restart":1}"#,
        r#"{"restart":0,"site":0}"#,
        r#"{"site":0,"inputs":[{"get":"x"}],"stop":{"call":1,"keep":"all"}}"#,
        r#"{"site":0,"inputs":[{"at":1,"reads":[],"writes":[],"push":null}]}"#,
        r#"{"site":0,"inputs":[{"at":1.0,"reads":[],"writes":[]}]}"#,
        r#"{"site":0,"inputs":[{"at":1,"reads":[]}]}"#,
    ];
    for step in cases {
        let got = line_of(rt.alloc(), "replay", schedule_text(rt.alloc(), step)?)?;
        assert_eq!(rt; got.0, 5, "{step}");
        assert_eq!(rt;
            got.1.as_slice(),
            b"refused bad-step 0\n".as_slice(),
            "{step}"
        );
    }
    Ok(())
}
