use crate::line_of;
use helios_model::SiteId;
use rtt_matrix::read_matrix;
use std::test::Fail;

const THREE: &str =
    r#"{"rtt":[[0,30000,20000],[30000,0,40000],[20000,40000,0]],"names":["A","B","C"],"more":null}"#;

#[test]
fn texts_are_read_or_refused(rt: HostRuntime) -> Result<(), Fail> {
    let cases = [
        (THREE, "matrix"),
        (r#"{"names":["A"],"rtt":[[0]]}"#, "matrix"),
        (
            r#"{"names":["A","B"],"rtt":[[0,1000000000],[1000000000,0]]}"#,
            "matrix",
        ),
        ("", "not-json"),
        (r#"{"names":["A"],"rtt":[[0]]} 1"#, "not-json"),
        ("[]", "bad-shape"),
        (r#"{"rtt":[[0]]}"#, "bad-shape"),
        (r#"{"names":["A"]}"#, "bad-shape"),
        (r#"{"names":["A",1],"rtt":[[0]]}"#, "bad-shape"),
        (r#"{"names":["A"],"rtt":{}}"#, "bad-shape"),
        (r#"{"names":[],"rtt":[1]}"#, "site-count 0"),
        (
            r#"{"names":["","","","","","","","","","","","","","","","","","","","","","","","","","","","","","","","",""],"rtt":[]}"#,
            "site-count 33",
        ),
        (r#"{"names":["A","B C","D"],"rtt":[]}"#, "bad-name 1"),
        (r#"{"names":["A","B","A"],"rtt":[]}"#, "bad-name 2"),
        (r#"{"names":["A",""],"rtt":[]}"#, "bad-name 1"),
        (
            r#"{"names":["123456789012345678901234567890123"],"rtt":[]}"#,
            "bad-name 0",
        ),
        (r#"{"names":["A","B"],"rtt":[]}"#, "bad-row 0"),
        (r#"{"names":["A","B"],"rtt":[[0,1],[1]]}"#, "bad-row 1"),
        (r#"{"names":["A","B"],"rtt":[[0,1]]}"#, "bad-row 1"),
        (r#"{"names":["A","B"],"rtt":[[0,1],[1,0.0]]}"#, "bad-row 1"),
        (
            r#"{"names":["A","B"],"rtt":[[0,1],[1,0],[1,0]]}"#,
            "bad-row 2",
        ),
        (r#"{"names":["A","B"],"rtt":[[0,-1],[1,0],7]}"#, "bad-row 0"),
        (
            r#"{"names":["A","B"],"rtt":[[5,1],[1000000001,0]]}"#,
            "too-long 1 0",
        ),
        (
            r#"{"names":["A","B"],"rtt":[[0,30],[31,0]]}"#,
            "not-symmetric 0 1",
        ),
        (
            r#"{"names":["A","B","C"],"rtt":[[9,1,2],[1,0,3],[2,4,0]]}"#,
            "not-symmetric 1 2",
        ),
        (r#"{"names":["A","B"],"rtt":[[0,1],[1,3]]}"#, "diagonal 1"),
    ];
    for (text, want) in cases {
        let line = line_of(
            rt.alloc(),
            "matrix",
            read_matrix(rt.alloc(), text.as_bytes()),
        )?;
        assert_eq!(rt; line.as_str(), want, "at {text}");
    }
    Ok(())
}

#[test]
fn what_is_read_is_what_the_text_says(rt: HostRuntime) -> Result<(), Fail> {
    let m = read_matrix(rt.alloc(), THREE.as_bytes())?;
    assert_eq!(rt; m.count(), 3);
    assert_eq!(rt; m.name(SiteId::of(1)), "B");
    assert_eq!(rt; m.rtt(SiteId::of(1), SiteId::of(2)), 40_000);
    Ok(())
}
