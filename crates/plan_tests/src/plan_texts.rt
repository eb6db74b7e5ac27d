use crate::line_of;
use commit_offsets::{fingerprint, offset, print_plan, read_plan};
use helios_model::SiteId;
use std::test::Fail;

const ONE_SITE: &str =
    r#"{"latency":[0],"names":["A"],"offset":[[0]],"pair":[0],"rtt":[[0]],"total":0,"version":1}"#;

const EVEN: &str =
    r#"{"latency":[100,100],"names":["A","B"],"offset":[[0,0],[0,0]],"pair":[1,0],"rtt":[[0,100],[100,0]],"total":200,"version":1}"#;

const UNEVEN: &str =
    r#"{"latency":[0,200],"names":["A","B"],"offset":[[0,-100],[100,0]],"pair":[1,0],"rtt":[[0,100],[100,0]],"total":200,"version":1}"#;

const THREE: &str =
    r#"{"latency":[10000,50000,30000],"names":["A","B","C"],"offset":[[0,-20000,-10000],[20000,0,10000],[10000,-10000,0]],"pair":[1,2,0],"rtt":[[0,30000,20000],[30000,0,40000],[20000,40000,0]],"total":90000,"version":1}"#;

const SLACK: &str =
    r#"{"latency":[200,200,200],"names":["A","B","C"],"offset":[[0,100,100],[100,0,200],[100,200,0]],"pair":[1,0,2],"rtt":[[0,100,100],[100,0,0],[100,0,0]],"total":600,"version":1}"#;

#[test]
fn texts_are_read_or_refused(rt: HostRuntime) -> Result<(), Fail> {
    let cases = [
        (ONE_SITE, "plan"),
        (EVEN, "plan"),
        (UNEVEN, "plan"),
        (THREE, "plan"),
        (SLACK, "plan"),
        ("", "not-json"),
        (r#"{"version":1"#, "not-json"),
        ("[]", "bad-field plan"),
        ("{}", "bad-field version"),
        (r#"{"version":1.0}"#, "bad-field version"),
        (r#"{"version":2}"#, "bad-field version"),
        (r#"{"version":1}"#, "bad-field names"),
        (r#"{"version":1,"names":[]}"#, "bad-field names"),
        (r#"{"version":1,"names":["A","A"]}"#, "bad-field names"),
        (r#"{"version":1,"names":["A B"]}"#, "bad-field names"),
        (
            r#"{"version":1,"names":["123456789012345678901234567890123"]}"#,
            "bad-field names",
        ),
        (r#"{"version":1,"names":["A","B"]}"#, "bad-field rtt"),
        (
            r#"{"version":1,"names":["A","B"],"rtt":[[0,1]]}"#,
            "bad-field rtt",
        ),
        (
            r#"{"version":1,"names":["A","B"],"rtt":[[0,1],[2,0]]}"#,
            "bad-field rtt",
        ),
        (
            r#"{"version":1,"names":["A","B"],"rtt":[[0,1],[1,3]]}"#,
            "bad-field rtt",
        ),
        (
            r#"{"version":1,"names":["A","B"],"rtt":[[0,-0],[0,0]]}"#,
            "bad-field rtt",
        ),
        (
            r#"{"version":1,"names":["A"],"rtt":[[0]],"latency":[1e2]}"#,
            "bad-field latency",
        ),
        (
            r#"{"version":1,"names":["A"],"rtt":[[0]],"latency":[1,2]}"#,
            "bad-field latency",
        ),
        (
            r#"{"version":1,"names":["A"],"rtt":[[0]],"latency":[1],"offset":[[0.5]]}"#,
            "bad-field offset",
        ),
        (
            r#"{"version":1,"names":["A"],"rtt":[[0]],"latency":[1],"offset":[[9223372036854775808]]}"#,
            "bad-field offset",
        ),
        (
            r#"{"version":1,"names":["A"],"rtt":[[0]],"latency":[1],"offset":[[7]],"pair":[-1]}"#,
            "bad-field pair",
        ),
        (
            r#"{"version":1,"names":["A"],"rtt":[[0]],"latency":[1],"offset":[[7]],"pair":[32],"total":"1"}"#,
            "bad-field total",
        ),
        (
            r#"{"latency":[2000000001],"names":["A"],"offset":[[7]],"pair":[32],"rtt":[[0]],"total":7,"version":1}"#,
            "limit latency",
        ),
        (
            r#"{"latency":[0,0],"names":["A","B"],"offset":[[7,7],[7,7]],"pair":[32,0],"rtt":[[0,1000000001],[1000000001,0]],"total":7,"version":1}"#,
            "limit rtt",
        ),
        (
            r#"{"latency":[2000000000],"names":["A"],"offset":[[7]],"pair":[32],"rtt":[[0]],"total":7,"version":1}"#,
            "limit pair",
        ),
        (
            r#"{"latency":[2000000000],"names":["A"],"offset":[[7]],"pair":[31],"rtt":[[0]],"total":7,"version":1}"#,
            "offset-differs 0 0",
        ),
        (
            r#"{"latency":[0,200],"names":["A","B"],"offset":[[0,100],[-100,0]],"pair":[1,0],"rtt":[[0,100],[100,0]],"total":200,"version":1}"#,
            "offset-differs 0 1",
        ),
        (
            r#"{"latency":[2,3],"names":["A","B"],"offset":[[0,2],[3,0]],"pair":[1,0],"rtt":[[0,0],[0,0]],"total":6,"version":1,"more":null}"#,
            "total-differs 6 5",
        ),
        (
            r#"{"latency":[2,3],"names":["A","B"],"offset":[[0,2],[3,0]],"pair":[1,0],"rtt":[[0,0],[0,0]],"total":5,"version":1,"more":null}"#,
            "plan",
        ),
    ];
    for (text, want) in cases {
        let line = line_of(rt.alloc(), "plan", read_plan(rt.alloc(), text.as_bytes()))?;
        assert_eq!(rt; line.as_str(), want, "at {text}");
    }
    Ok(())
}

#[test]
fn what_is_read_is_what_the_text_says(rt: HostRuntime) -> Result<(), Fail> {
    let (plan, certificate) = read_plan(rt.alloc(), THREE.as_bytes())?;
    assert_eq!(rt; plan.count(), 3);
    assert_eq!(rt; plan.name(SiteId::of(1)), "B");
    assert_eq!(rt; plan.rtt(SiteId::of(1), SiteId::of(2)), 40_000);
    assert_eq!(rt; plan.latency(SiteId::of(1)), 50_000);
    assert_eq!(rt; offset(&plan, SiteId::of(0), SiteId::of(1)), -20_000);
    assert_eq!(rt; offset(&plan, SiteId::of(2), SiteId::of(2)), 0);
    assert_eq!(rt; certificate.pair.items(), [1, 2, 0].as_slice());
    Ok(())
}

#[test]
fn what_is_printed_is_the_text_that_was_read(rt: HostRuntime) -> Result<(), Fail> {
    for text in [ONE_SITE, EVEN, UNEVEN, THREE, SLACK] {
        let (plan, certificate) = read_plan(rt.alloc(), text.as_bytes())?;
        let printed = print_plan(rt.alloc(), &plan, &certificate)?;
        let line = format!(in rt.alloc(); "{text}\n")?;
        assert_eq!(rt; printed.items(), line.as_bytes(), "at {text}");
    }
    Ok(())
}

// The digest of the latencies, names and round trips of three sites, as another program told it of the text
// {"latency":[10000,50000,30000],"names":["A","B","C"],"rtt":[[0,30000,20000],[30000,0,40000],[20000,40000,0]]}
const THREE_FINGERPRINT: [u8; 32] = [
    15, 5, 151, 174, 65, 203, 108, 98, 183, 41, 72, 166, 78, 170, 122, 233, 51, 115, 183, 140, 251,
    124, 69, 152, 1, 187, 244, 214, 113, 107, 238, 170,
];

#[test]
fn a_fingerprint_is_the_digest_of_the_canonical_text(rt: HostRuntime) -> Result<(), Fail> {
    let (plan, _certificate) = read_plan(rt.alloc(), THREE.as_bytes())?;
    assert_eq!(rt; fingerprint(rt.alloc(), &plan)?, THREE_FINGERPRINT);
    Ok(())
}
