// Which histories are serial, and the first read of another version of one that is not.
use helios_model::Key;
use history_audit::{AuditVerdict, audit, read_history};
use std::alloc::{AllocError, Global};
use std::test::Fail;

fn text_of(alloc: Global, key: &Key) -> Result<String, AllocError> {
    let mut text = String::new(alloc);
    for byte in key.items() {
        text.push(char::from(*byte))?;
    }
    Ok(text)
}

fn line_of(alloc: Global, verdict: &AuditVerdict) -> Result<String, AllocError> {
    match verdict {
        AuditVerdict::Serial(count) => format!(in alloc; "serial {count}"),
        AuditVerdict::NotSerial {
            place,
            key,
            read,
            current,
        } => {
            let key = text_of(alloc, key)?;
            format!(in alloc; "not-serial {place} {key} {read} {current}")
        }
    }
}

#[test]
fn histories_are_audited(rt: HostRuntime) -> Result<(), Fail> {
    let cases = [
        ("[]", "serial 0"),
        (
            r#"[{"id":"0@1000","reads":[],"writes":["x"]},{"id":"0@1002","reads":[["x","0@1000"]],"writes":["x"]}]"#,
            "serial 2",
        ),
        // a write over another, a key that is read before it is written, and a read of two keys
        (
            r#"[{"id":"0@1","reads":[["x","initial"]],"writes":["x","y"]},{"id":"1@1","reads":[],"writes":["x"]},{"id":"2@1","reads":[["y","0@1"],["x","1@1"],["z","initial"]],"writes":["x","z"]}]"#,
            "serial 3",
        ),
        (
            r#"[{"id":"0@1","reads":[],"writes":["x"]},{"id":"0@3","reads":[["x","initial"]],"writes":[]}]"#,
            "not-serial 1 x initial 0@1",
        ),
        // the first read in the order of its list, and not a later one
        (
            r#"[{"id":"0@1","reads":[],"writes":["a","b"]},{"id":"0@3","reads":[["c","initial"],["b","0@2"],["a","initial"]],"writes":[]}]"#,
            "not-serial 1 b 0@2 0@1",
        ),
        // a version that was overwritten, and one that is written later
        (
            r#"[{"id":"0@1","reads":[],"writes":["x"]},{"id":"0@2","reads":[],"writes":["x"]},{"id":"0@3","reads":[["x","0@1"]],"writes":[]}]"#,
            "not-serial 2 x 0@1 0@2",
        ),
        (
            r#"[{"id":"0@1","reads":[["x","0@2"]],"writes":[]},{"id":"0@2","reads":[],"writes":["x"]}]"#,
            "not-serial 0 x 0@2 initial",
        ),
        // a transaction does not read what it writes itself
        (
            r#"[{"id":"0@1","reads":[["x","0@1"]],"writes":["x"]}]"#,
            "not-serial 0 x 0@1 initial",
        ),
        // the same time at another site, and another time at the same site
        (
            r#"[{"id":"1@5","reads":[],"writes":["x"]},{"id":"0@6","reads":[["x","0@5"]],"writes":[]}]"#,
            "not-serial 1 x 0@5 1@5",
        ),
        (
            r#"[{"id":"1@5","reads":[],"writes":["x"]},{"id":"0@6","reads":[["x","1@4"]],"writes":[]}]"#,
            "not-serial 1 x 1@4 1@5",
        ),
    ];
    for (text, want) in cases {
        let history = read_history(rt.alloc(), text.as_bytes())?;
        let verdict = audit(rt.alloc(), &history)?;
        let line = line_of(rt.alloc(), &verdict)?;
        assert_eq!(rt; line.as_str(), want, "at {text}");
    }
    Ok(())
}
