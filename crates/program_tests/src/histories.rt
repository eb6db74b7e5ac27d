// Histories and trials through `run`.
use crate::replays::{ALONE, EVEN, schedule_text};
use crate::runs::{EMPTY, Outcome, run_over};
use std::alloc::{AllocError, Global};
use std::test::Fail;

/// Runs the words over the input, which is read in pieces.
fn outcome(alloc: Global, words: &[&str], input: &[u8]) -> Result<Outcome, AllocError> {
    run_over(alloc, words, input.to_vec(alloc)?, 1000, &[], &[])
}

#[test]
fn prints_each_history(rt: HostRuntime) -> Result<(), Fail> {
    let cases: [(&str, &[&str], &str); 3] = [
        (ALONE, &[], "[]\n"),
        (
            ALONE,
            &["0 W 1000 x", "0 R 1000 x 0@1000"],
            "[{\"id\":\"0@1000\",\"reads\":[],\"writes\":[\"x\"]},{\"id\":\"0@1002\",\"reads\":[[\"x\",\"0@1000\"]],\"writes\":[\"x\"]}]\n",
        ),
        // The transaction of site 1 commits first, and the one of site 0 once it has heard of site 1.
        (
            EVEN,
            &[
                "0 W 1000 x",
                "1 W 1000 y",
                "0 pull 1001 1",
                "1 push 1001 0",
                "1 pull 1002 0",
                "0 push 1002 1",
            ],
            "[{\"id\":\"1@1000\",\"reads\":[],\"writes\":[\"y\"]},{\"id\":\"0@1000\",\"reads\":[],\"writes\":[\"x\"]}]\n",
        ),
    ];
    for (plan, steps, history) in cases {
        let input = schedule_text(rt.alloc(), plan, steps)?;
        let got = outcome(rt.alloc(), &["replay", "--history"], input.as_slice())?;
        assert_eq!(rt; got.written.as_slice(), history.as_bytes(), "{history}");
        assert_eq!(rt; got.status, 0);
        assert_eq!(rt;
            outcome(rt.alloc(), &["audit"], history.as_bytes())?.status,
            0
        );
    }
    Ok(())
}

#[test]
fn audits_each_history(rt: HostRuntime) -> Result<(), Fail> {
    let cases = [
        ("[]", 0, "serial 0\n"),
        (
            r#"[{"id":"0@1","reads":[["x","initial"]],"writes":["x"]},{"id":"0@3","reads":[["x","0@1"]],"writes":[]}]"#,
            0,
            "serial 2\n",
        ),
        (
            r#"[{"id":"0@1","reads":[],"writes":["x"]},{"id":"0@3","reads":[["x","initial"]],"writes":[]}]"#,
            9,
            "not-serial 1 x initial 0@1\n",
        ),
        (
            r#"[{"id":"0@1","reads":[["a","initial"],["key","31@4611686018427387904"]],"writes":[]}]"#,
            9,
            "not-serial 0 key 31@4611686018427387904 initial\n",
        ),
        ("", 5, "refused not-json\n"),
        ("{}", 5, "refused bad-shape\n"),
        (
            r#"[{"id":"0@1","reads":[],"writes":[]},{"id":"0@1","reads":[],"writes":[]}]"#,
            5,
            "refused bad-transaction 1\n",
        ),
    ];
    for (input, status, line) in cases {
        let got = outcome(rt.alloc(), &["audit"], input.as_bytes())?;
        assert_eq!(rt; got.written.as_slice(), line.as_bytes(), "{line}");
        assert_eq!(rt; got.status, status);
    }
    Ok(())
}

#[test]
fn a_trial_goes_by_its_number_alone(rt: HostRuntime) -> Result<(), Fail> {
    let first = outcome(rt.alloc(), &["trial", "1"], EMPTY.as_bytes())?;
    assert_eq!(rt; first.status, 0);
    assert_eq!(rt; first.left, EMPTY.len());
    assert!(rt;
        first
            .written
            .as_slice()
            .starts_with(b"trial 1 steps 4000 commits ")
    );
    // A reader that fails is not asked.
    let again = run_over(
        rt.alloc(),
        &["trial", "1"],
        Vec::new(rt.alloc()),
        1,
        &[0],
        &[],
    )?;
    assert_eq!(rt; again.written.as_slice(), first.written.as_slice());
    let other = outcome(rt.alloc(), &["trial", "18446744073709551615"], b"")?;
    assert_eq!(rt; other.status, 0);
    assert!(rt; other.written.as_slice() != first.written.as_slice());
    Ok(())
}
