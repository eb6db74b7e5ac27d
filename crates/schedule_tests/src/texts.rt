// What a schedule's text says, and the first rule that it breaks.
use disk_store::{Keep, Stop};
use helios_model::Puts;
use schedule_text::{Planned, PlannedInputs, PlannedReads, PlannedVersion, Step, read_schedule};
use std::alloc::{AllocError, Global};
use std::test::Fail;

const PLAN: &str =
    r#"{"latency":[100,100],"names":["A","B"],"offset":[[0,0],[0,0]],"pair":[1,0],"rtt":[[0,100],[100,0]],"total":200,"version":1}"#;

fn push_bytes(line: &mut String, bytes: &[u8]) -> Result<(), AllocError> {
    for byte in bytes {
        line.push(char::from(*byte))?;
    }
    Ok(())
}

fn push_reads(alloc: Global, line: &mut String, reads: &PlannedReads) -> Result<(), AllocError> {
    for read in reads.items() {
        line.push(' ')?;
        push_bytes(line, read.key.items())?;
        match read.version {
            PlannedVersion::Current => line.push_str("=current")?,
            PlannedVersion::At(version) => {
                line.push_str(format!(in alloc; "={version}")?.as_str())?;
            }
        }
    }
    Ok(())
}

fn push_puts(line: &mut String, puts: &Puts) -> Result<(), AllocError> {
    for put in puts.items() {
        line.push(' ')?;
        push_bytes(line, put.key.items())?;
        line.push_str(":=")?;
        push_bytes(line, put.value.items())?;
    }
    Ok(())
}

fn push_input(alloc: Global, line: &mut String, input: &Planned) -> Result<(), AllocError> {
    match input {
        Planned::Get(key) => {
            line.push_str(" get ")?;
            push_bytes(line, key.items())
        }
        Planned::Status(id) => line.push_str(format!(in alloc; " status {id}")?.as_str()),
        Planned::Request { at, reads, puts } => {
            line.push_str(format!(in alloc; " request {at}")?.as_str())?;
            push_reads(alloc, line, reads)?;
            push_puts(line, puts)
        }
        Planned::Pull { at, to } => {
            let to = to.number();
            line.push_str(format!(in alloc; " pull {at} {to}")?.as_str())
        }
        Planned::Push { at, message } => {
            line.push_str(format!(in alloc; " push {at} {message}")?.as_str())
        }
    }
}

fn push_inputs(alloc: Global, line: &mut String, inputs: &PlannedInputs) -> Result<(), AllocError> {
    for input in inputs.items() {
        push_input(alloc, line, input)?;
    }
    Ok(())
}

fn push_stop(alloc: Global, line: &mut String, stop: Option<Stop>) -> Result<(), AllocError> {
    let Some(Stop { call, keep }) = stop else {
        return Ok(());
    };
    line.push_str(format!(in alloc; " stop {call} ")?.as_str())?;
    match keep {
        Keep::All => line.push_str("all"),
        Keep::Nothing => line.push_str("nothing"),
        Keep::Byte(byte) => line.push_str(format!(in alloc; "{byte}")?.as_str()),
    }
}

fn push_step(alloc: Global, line: &mut String, step: &Step) -> Result<(), AllocError> {
    match step {
        Step::Batch { site, inputs, stop } => {
            let site = site.number();
            line.push_str(format!(in alloc; "batch {site}")?.as_str())?;
            push_inputs(alloc, line, inputs)?;
            push_stop(alloc, line, *stop)
        }
        Step::Restart { site, stop } => {
            let site = site.number();
            line.push_str(format!(in alloc; "restart {site}")?.as_str())?;
            push_stop(alloc, line, *stop)
        }
    }
}

// The steps that a text says, or its refusal.
fn line_of(alloc: Global, text: &str) -> Result<String, AllocError> {
    match read_schedule(alloc, text.as_bytes()) {
        Err(refusal) => format!(in alloc; "{refusal}"),
        Ok(schedule) => {
            let mut line = String::new(alloc);
            for step in schedule.steps.items() {
                push_step(alloc, &mut line, step)?;
            }
            Ok(line)
        }
    }
}

#[test]
fn texts_are_refused_in_order(rt: HostRuntime) -> Result<(), Fail> {
    let short =
        r#"{"latency":[99,100],"names":["A","B"],"offset":[[0,-1],[0,0]],"pair":[1,0],"rtt":[[0,100],[100,0]],"total":199,"version":1}"#;
    let cases = [
        ("", "not-json"),
        ("[1]", "bad-shape"),
        ("{}", "bad-shape"),
        (r#"{"plan":1}"#, "bad-shape"),
        (r#"{"plan":1,"steps":{}}"#, "bad-shape"),
        (r#"{"steps":[1]}"#, "bad-shape"),
        (r#"{"plan":1,"steps":[1]}"#, "plan bad-field plan"),
        (r#"{"plan":null,"steps":[1]}"#, "plan bad-field plan"),
        (
            r#"{"plan":{"version":1},"steps":[1]}"#,
            "plan bad-field names",
        ),
    ];
    for (text, want) in cases {
        let line = line_of(rt.alloc(), text)?;
        assert_eq!(rt; line.as_str(), want, "at {text}");
    }
    let text = format!(in rt.alloc(); "{{\"plan\":{short},\"steps\":[1]}}")?;
    assert_eq!(rt;
        line_of(rt.alloc(), text.as_str())?.as_str(),
        "short-pair 0 1"
    );
    Ok(())
}

/// A schedule of so many equal steps.
fn equal_steps(alloc: Global, step: &str, count: u32) -> Result<String, AllocError> {
    let mut text = format!(in alloc; "{{\"plan\":{PLAN},\"steps\":[{step}")?;
    for _ in 1..count {
        text.push(',')?;
        text.push_str(step)?;
    }
    text.push_str("]}")?;
    Ok(text)
}

#[test]
fn steps_are_counted_before_they_are_read(rt: HostRuntime) -> Result<(), Fail> {
    let text = equal_steps(rt.alloc(), r#"{"restart":1}"#, 100_000)?;
    let schedule = read_schedule(rt.alloc(), text.as_bytes())?;
    assert_eq!(rt; schedule.steps.items().len(), 100_000);
    assert_eq!(rt; schedule.plan.count(), 2);
    let text = equal_steps(rt.alloc(), "0", 100_001)?;
    let line = line_of(rt.alloc(), text.as_str())?;
    assert_eq!(rt; line.as_str(), "too-many-steps 100001");
    Ok(())
}

#[test]
fn steps_are_read(rt: HostRuntime) -> Result<(), Fail> {
    let cases = [
        (r#"{"site":1,"inputs":[{"get":"x"}]}"#, "batch 1 get x"),
        (
            r#"{"site":0,"inputs":[{"status":"31@4611686018427387904"}]}"#,
            "batch 0 status 31@4611686018427387904",
        ),
        (
            r#"{"site":0,"inputs":[{"at":18446744073709551615,"reads":[["x","current"],["y","initial"],["z","1@7"]],"writes":[["x",""],["q","v1"]]}]}"#,
            "batch 0 request 18446744073709551615 x=current y=initial z=1@7 x:= q:=v1",
        ),
        (
            r#"{"site":0,"inputs":[{"at":0,"reads":[],"writes":[]}]}"#,
            "batch 0 request 0",
        ),
        (
            r#"{"site":0,"inputs":[{"at":5,"pull":1}]}"#,
            "batch 0 pull 5 1",
        ),
        (
            r#"{"site":0,"inputs":[{"at":5,"push":99}]}"#,
            "batch 0 push 5 99",
        ),
        (r#"{"restart":1}"#, "restart 1"),
        (
            r#"{"site":0,"inputs":[{"get":"x"},{"at":5,"push":0}],"stop":{"call":1,"keep":"all"}}"#,
            "batch 0 get x push 5 0 stop 1 all",
        ),
        (
            r#"{"site":0,"inputs":[{"at":5,"pull":1}],"stop":{"call":4,"keep":"nothing"}}"#,
            "batch 0 pull 5 1 stop 4 nothing",
        ),
        (
            r#"{"site":0,"inputs":[{"at":5,"reads":[],"writes":[]}],"stop":{"call":2,"keep":0}}"#,
            "batch 0 request 5 stop 2 0",
        ),
        (
            r#"{"restart":0,"stop":{"call":8,"keep":255,"more":1}}"#,
            "restart 0 stop 8 255",
        ),
        (r#"{"restart":0,"inputs":1,"at":1}"#, "restart 0"),
        (
            r#"{"site":0,"inputs":[{"get":"x","at":null,"writes":1}]}"#,
            "batch 0 get x",
        ),
        (
            r#"{"site":0,"inputs":[{"at":1,"push":2,"writes":1}],"get":1}"#,
            "batch 0 push 1 2",
        ),
    ];
    for (step, want) in cases {
        let text = format!(in rt.alloc(); "{{\"plan\":{PLAN},\"steps\":[{step}]}}")?;
        let line = line_of(rt.alloc(), text.as_str())?;
        assert_eq!(rt; line.as_str(), want, "at {step}");
    }
    Ok(())
}

#[test]
fn the_first_bad_step_is_named(rt: HostRuntime) -> Result<(), Fail> {
    let cases = [
        r#"1"#,
        r#"{}"#,
        r#"{"site":0}"#,
        r#"{"inputs":[{"get":"x"}]}"#,
        r#"{"site":2,"inputs":[{"get":"x"}]}"#,
        r#"{"site":0,"inputs":{}}"#,
        r#"{"site":0,"inputs":[]}"#,
        r#"{"site":0,"inputs":[1]}"#,
        r#"{"site":0,"inputs":[{}]}"#,
        r#"{"restart":2}"#,
        r#"{"restart":"0"}"#,
        r#"{"restart":0,"site":0}"#,
        r#"{"restart":0,"site":null}"#,
        r#"{"site":0,"restart":null,"inputs":[{"get":"x"}]}"#,
        r#"{"site":0,"inputs":[{"get":""}]}"#,
        r#"{"site":0,"inputs":[{"get":"a=b"}]}"#,
        r#"{"site":0,"inputs":[{"get":null}]}"#,
        r#"{"site":0,"inputs":[{"status":"32@1"}]}"#,
        r#"{"site":0,"inputs":[{"status":"initial"}]}"#,
        r#"{"site":0,"inputs":[{"reads":[],"writes":[]}]}"#,
        r#"{"site":0,"inputs":[{"at":1,"reads":[]}]}"#,
        r#"{"site":0,"inputs":[{"at":1,"writes":[]}]}"#,
        r#"{"site":0,"inputs":[{"at":-1,"reads":[],"writes":[]}]}"#,
        r#"{"site":0,"inputs":[{"at":1.5,"reads":[],"writes":[]}]}"#,
        r#"{"site":0,"inputs":[{"at":1,"reads":[["x","initial"],["x","current"]],"writes":[]}]}"#,
        r#"{"site":0,"inputs":[{"at":1,"reads":[["x","now"]],"writes":[]}]}"#,
        r#"{"site":0,"inputs":[{"at":1,"reads":[],"writes":[["x","v"],["x","w"]]}]}"#,
        r#"{"site":0,"inputs":[{"at":1,"reads":[],"writes":[["x",1]]}]}"#,
        r#"{"site":0,"inputs":[{"pull":1}]}"#,
        r#"{"site":0,"inputs":[{"at":1,"pull":0}]}"#,
        r#"{"site":0,"inputs":[{"at":1,"pull":2}]}"#,
        r#"{"site":0,"inputs":[{"push":0}]}"#,
        r#"{"site":0,"inputs":[{"at":1,"push":-1}]}"#,
        r#"{"site":0,"inputs":[{"get":"x","push":null}]}"#,
        r#"{"site":0,"inputs":[{"get":"x","status":"0@1"}]}"#,
        r#"{"site":0,"inputs":[{"at":1,"reads":[],"writes":[],"pull":null}]}"#,
        r#"{"site":0,"inputs":[{"at":1,"pull":1,"push":0}]}"#,
        r#"{"site":0,"inputs":[{"get":"x"}],"stop":{"call":1,"keep":"all"}}"#,
        r#"{"site":0,"inputs":[{"get":"x"},{"status":"0@1"}],"stop":{"call":1,"keep":"all"}}"#,
        r#"{"site":0,"inputs":[{"at":1,"push":0}],"stop":null}"#,
        r#"{"site":0,"inputs":[{"at":1,"push":0}],"stop":{"keep":"all"}}"#,
        r#"{"site":0,"inputs":[{"at":1,"push":0}],"stop":{"call":1}}"#,
        r#"{"site":0,"inputs":[{"at":1,"push":0}],"stop":{"call":0,"keep":"all"}}"#,
        r#"{"site":0,"inputs":[{"at":1,"push":0}],"stop":{"call":5,"keep":"all"}}"#,
        r#"{"site":0,"inputs":[{"at":1,"push":0}],"stop":{"call":1,"keep":256}}"#,
        r#"{"site":0,"inputs":[{"at":1,"push":0}],"stop":{"call":1,"keep":"some"}}"#,
        r#"{"restart":0,"stop":null}"#,
        r#"{"restart":0,"stop":{"call":9,"keep":0}}"#,
    ];
    for step in cases {
        let text = format!(in rt.alloc();
            "{{\"plan\":{PLAN},\"steps\":[{{\"restart\":0}},{step},{step}]}}"
        )?;
        let line = line_of(rt.alloc(), text.as_str())?;
        assert_eq!(rt; line.as_str(), "bad-step 1", "at {step}");
    }
    Ok(())
}

/// How many inputs the first step has.
fn inputs_in(steps: &[Step]) -> usize {
    match steps {
        [Step::Batch { inputs, .. }, ..] => inputs.items().len(),
        _ => 0,
    }
}

#[test]
fn a_batch_has_at_most_16_inputs(rt: HostRuntime) -> Result<(), Fail> {
    for (count, want) in [(16, 16), (17, 0)] {
        let mut text = format!(in rt.alloc();
            "{{\"plan\":{PLAN},\"steps\":[{{\"site\":0,\"inputs\":["
        )?;
        for number in 0..count {
            if number > 0 {
                text.push(',')?;
            }
            text.push_str(r#"{"get":"x"}"#)?;
        }
        text.push_str("]}]}")?;
        let read = match read_schedule(rt.alloc(), text.as_bytes()) {
            Ok(schedule) => inputs_in(schedule.steps.items()),
            Err(_) => 0,
        };
        assert_eq!(rt; read, want);
    }
    Ok(())
}
