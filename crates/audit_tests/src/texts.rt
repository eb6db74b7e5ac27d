// What a history's text says, and the first rule that it breaks.
use helios_model::{Key, Version};
use history_audit::{Item, read_history};
use std::alloc::{AllocError, Global};
use std::test::Fail;

fn push_key(line: &mut String, key: &Key) -> Result<(), AllocError> {
    for byte in key.items() {
        line.push(char::from(*byte))?;
    }
    Ok(())
}

fn push_read(
    alloc: Global,
    line: &mut String,
    key: &Key,
    version: Version,
) -> Result<(), AllocError> {
    line.push(' ')?;
    push_key(line, key)?;
    line.push_str(format!(in alloc; "={version}")?.as_str())
}

fn push_item(alloc: Global, line: &mut String, item: &Item) -> Result<(), AllocError> {
    let id = item.id;
    line.push_str(format!(in alloc; "{id}")?.as_str())?;
    for read in item.reads.items() {
        push_read(alloc, line, &read.key, read.version)?;
    }
    for key in item.writes.items() {
        line.push_str(" :")?;
        push_key(line, key)?;
    }
    line.push(';')
}

// The transactions that a text says, or its refusal.
fn line_of(alloc: Global, text: &str) -> Result<String, AllocError> {
    match read_history(alloc, text.as_bytes()) {
        Err(refusal) => format!(in alloc; "{refusal}"),
        Ok(history) => {
            let mut line = String::new(alloc);
            for item in history.items() {
                push_item(alloc, &mut line, item)?;
            }
            Ok(line)
        }
    }
}

// So many keys of one letter and a number, as a text of JSON prints each.
fn many(
    alloc: Global,
    count: u32,
    before: &str,
    between: &str,
    after: &str,
) -> Result<String, AllocError> {
    let mut text = format!(in alloc; "{before}")?;
    for number in 0..count {
        if number > 0 {
            text.push_str(between)?;
        }
        text.push_str(format!(in alloc; "k{number}")?.as_str())?;
    }
    text.push_str(after)?;
    Ok(text)
}

#[test]
fn texts_are_read(rt: HostRuntime) -> Result<(), Fail> {
    let cases = [
        ("[]", ""),
        (" [ ]\n", ""),
        (r#"[{"id":"0@1","reads":[],"writes":[]}]"#, "0@1;"),
        (
            r#"[{"id":"31@4611686018427387904","reads":[["x","initial"],["y","1@7"]],"writes":["x","z"],"more":[1]}]"#,
            "31@4611686018427387904 x=initial y=1@7 :x :z;",
        ),
        (
            r#"[{"id":"0@1000","reads":[],"writes":["x"]},{"id":"0@1002","reads":[["x","0@1000"]],"writes":["x"]}]"#,
            "0@1000 :x;0@1002 x=0@1000 :x;",
        ),
        (
            r#"[{"id":"1@5","reads":[],"writes":[]},{"id":"0@5","reads":[],"writes":[]},{"id":"1@6","reads":[],"writes":[]}]"#,
            "1@5;0@5;1@6;",
        ),
    ];
    for (text, want) in cases {
        let line = line_of(rt.alloc(), text)?;
        assert_eq!(rt; line.as_str(), want, "at {text}");
    }
    Ok(())
}

#[test]
fn texts_are_refused_in_order(rt: HostRuntime) -> Result<(), Fail> {
    let cases = [
        ("", "not-json"),
        ("[", "not-json"),
        ("[] 1", "not-json"),
        ("1", "bad-shape"),
        ("null", "bad-shape"),
        ("{}", "bad-shape"),
        (r#"{"id":"0@1","reads":[],"writes":[]}"#, "bad-shape"),
        ("[1]", "bad-transaction 0"),
        // the earlier of a bad form and a repeated id
        (
            r#"[{"id":"0@1","reads":[],"writes":[]},{"id":"0@1","reads":[],"writes":[]},1]"#,
            "bad-transaction 1",
        ),
        (
            r#"[{"id":"0@1","reads":[],"writes":[]},1,{"id":"0@1","reads":[],"writes":[]}]"#,
            "bad-transaction 1",
        ),
        (
            r#"[{"id":"0@1","reads":[],"writes":[]},{"id":"1@1","reads":[],"writes":[]},{"id":"0@1","reads":[],"writes":[]}]"#,
            "bad-transaction 2",
        ),
        (
            r#"[{"id":"0@1","reads":1,"writes":[]},{"id":"0@1","reads":[],"writes":[]}]"#,
            "bad-transaction 0",
        ),
    ];
    for (text, want) in cases {
        let line = line_of(rt.alloc(), text)?;
        assert_eq!(rt; line.as_str(), want, "at {text}");
    }
    Ok(())
}

#[test]
fn each_bad_form_is_named(rt: HostRuntime) -> Result<(), Fail> {
    let cases = [
        r#"{"reads":[],"writes":[]}"#,
        r#"{"id":1,"reads":[],"writes":[]}"#,
        r#"{"id":"initial","reads":[],"writes":[]}"#,
        r#"{"id":"32@1","reads":[],"writes":[]}"#,
        r#"{"id":"0@0","reads":[],"writes":[]}"#,
        r#"{"id":"00@1","reads":[],"writes":[]}"#,
        r#"{"id":"0@4611686018427387905","reads":[],"writes":[]}"#,
        r#"{"id":"0@1","writes":[]}"#,
        r#"{"id":"0@1","reads":{},"writes":[]}"#,
        r#"{"id":"0@1","reads":["x"],"writes":[]}"#,
        r#"{"id":"0@1","reads":[["x"]],"writes":[]}"#,
        r#"{"id":"0@1","reads":[["x","initial",1]],"writes":[]}"#,
        r#"{"id":"0@1","reads":[["","initial"]],"writes":[]}"#,
        r#"{"id":"0@1","reads":[["a=b","initial"]],"writes":[]}"#,
        r#"{"id":"0@1","reads":[["x","current"]],"writes":[]}"#,
        r#"{"id":"0@1","reads":[["x","initial"],["x","0@1"]],"writes":[]}"#,
        r#"{"id":"0@1","reads":[]}"#,
        r#"{"id":"0@1","reads":[],"writes":"x"}"#,
        r#"{"id":"0@1","reads":[],"writes":[1]}"#,
        r#"{"id":"0@1","reads":[],"writes":[["x","v"]]}"#,
        r#"{"id":"0@1","reads":[],"writes":["a b"]}"#,
        r#"{"id":"0@1","reads":[],"writes":["x","y","x"]}"#,
    ];
    for item in cases {
        let text = format!(in rt.alloc();
            "[{{\"id\":\"1@1\",\"reads\":[],\"writes\":[]}},{item}]"
        )?;
        let line = line_of(rt.alloc(), text.as_str())?;
        assert_eq!(rt; line.as_str(), "bad-transaction 1", "at {item}");
    }
    Ok(())
}

// A history of one transaction with so many reads and writes.
fn of_sizes(alloc: Global, reads: u32, writes: u32) -> Result<String, AllocError> {
    let reads = if reads == 0 {
        String::from_str(alloc, "[]")?
    } else {
        many(
            alloc,
            reads,
            "[[\"",
            "\",\"initial\"],[\"",
            "\",\"initial\"]]",
        )?
    };
    let writes = if writes == 0 {
        String::from_str(alloc, "[]")?
    } else {
        many(alloc, writes, "[\"", "\",\"", "\"]")?
    };
    format!(in alloc; "[{{\"id\":\"0@1\",\"reads\":{reads},\"writes\":{writes}}}]")
}

#[test]
fn sixteen_reads_and_writes_are_the_most(rt: HostRuntime) -> Result<(), Fail> {
    let alloc = rt.alloc();
    let most = read_history(alloc, of_sizes(alloc, 16, 16)?.as_bytes())?;
    let mut sizes = String::new(alloc);
    for item in most.items() {
        let reads = item.reads.items().len();
        let writes = item.writes.items().len();
        sizes.push_str(format!(in alloc; "{reads} {writes}")?.as_str())?;
    }
    let reads = line_of(alloc, of_sizes(alloc, 17, 0)?.as_str())?;
    let writes = line_of(alloc, of_sizes(alloc, 0, 17)?.as_str())?;
    let told = format!(in alloc; "{sizes}, {reads}, {writes}")?;
    assert_eq!(rt;
        told.as_str(),
        "16 16, bad-transaction 0, bad-transaction 0"
    );
    Ok(())
}
