use crate::runs::{EMPTY, REPORT, run_over};
use std::alloc::{AllocError, Global};
use std::test::Fail;

/// A request at the limits, or past one: the bytes of each key and of each value, and how many it reads and writes.
#[derive(Clone, Copy)]
struct Size {
    key: usize,
    value: usize,
    reads: u8,
    writes: u8,
}

/// Adds an item of a request: a key, and a text behind it.
fn push_item(text: &mut Vec<u8>, number: u8, key: usize, behind: &[u8]) -> Result<(), AllocError> {
    if number > 0 {
        text.push(b',')?;
    }
    text.extend_from_slice(b"[\"")?;
    for _ in 0..key {
        text.push(b'a'.saturating_add(number))?;
    }
    text.extend_from_slice(b"\",\"")?;
    text.extend_from_slice(behind)?;
    text.extend_from_slice(b"\"]")
}

/// The schedule of one site with one such request, behind so many blanks.
fn schedule_of(alloc: Global, size: Size, blanks: usize) -> Result<Vec<u8>, AllocError> {
    let mut text = vec![in alloc; b' '; blanks]?;
    text.extend_from_slice(EMPTY.strip_suffix("]}").unwrap_or(EMPTY).as_bytes())?;
    text.extend_from_slice(b"{\"site\":0,\"inputs\":[{\"at\":1000,\"reads\":[")?;
    for number in 0..size.reads {
        push_item(&mut text, number, size.key, b"initial")?;
    }
    text.extend_from_slice(b"],\"writes\":[")?;
    let value = vec![in alloc; b'v'; size.value]?;
    for number in 0..size.writes {
        push_item(&mut text, number, size.key, value.as_slice())?;
    }
    text.extend_from_slice(b"]}]}]}")?;
    Ok(text)
}

#[test]
fn takes_a_request_up_to_each_limit(rt: HostRuntime) -> Result<(), Fail> {
    let cases = [
        (64, 1, 1, 1, 0, 0),
        (1, 1024, 1, 1, 0, 0),
        (1, 1, 16, 1, 0, 0),
        (1, 1, 1, 16, 0, 0),
        (64, 1024, 16, 16, 1_048_576, 0),
        (65, 1, 1, 1, 0, 5),
        (1, 1025, 1, 1, 0, 5),
        (1, 1, 17, 1, 0, 5),
        (1, 1, 1, 17, 0, 5),
    ];
    let report = "0 0 committed 0@1000\ncommit 0@1000\nsite 0 time 1001 log 2 pending 0\n";
    for (key, value, reads, writes, blanks, status) in cases {
        let size = Size {
            key,
            value,
            reads,
            writes,
        };
        let input = schedule_of(rt.alloc(), size, blanks)?;
        let got = run_over(rt.alloc(), &["replay"], input, 4096, &[], &[])?;
        assert_eq!(rt; got.status, status);
        let text = if status == 0 {
            report
        } else {
            "refused bad-step 0\n"
        };
        assert_eq!(rt; got.written.as_slice(), text.as_bytes());
    }
    Ok(())
}

#[test]
fn reads_up_to_the_limit(rt: HostRuntime) -> Result<(), Fail> {
    let mut input = vec![in rt.alloc(); b' '; 16_777_216 - EMPTY.len()]?;
    input.extend_from_slice(EMPTY.as_bytes())?;
    let mut longer = input.clone()?;
    longer.push(b' ')?;
    longer.push(b' ')?;
    // All reads but the last give 8,192 bytes; the one behind the last would fail.
    let most = run_over(rt.alloc(), &["replay"], input, 65536, &[2049], &[])?;
    assert_eq!(rt; (most.status, most.left), (0, 0));
    assert_eq!(rt; most.written.as_slice(), REPORT.as_bytes());
    let over = run_over(rt.alloc(), &["replay"], longer, 65536, &[2049], &[])?;
    assert_eq!(rt; (over.status, over.left), (5, 1));
    assert_eq!(rt; over.written.as_slice(), b"refused too-large\n".as_slice());
    Ok(())
}
