ghost use Rattle.std.specs.Prelude.{◌<◌};

use disk_store::{Bench, MemDisk};
use helios_top::run;
use outside_io::{MemSink, MemSource};
use std::alloc::{AllocError, Global};
use std::test::Fail;

/// The schedule without steps.
pub(crate) const EMPTY: &str =
    r#"{"plan":{"latency":[0],"names":["A"],"offset":[[0]],"pair":[0],"rtt":[[0]],"total":0,"version":1},"steps":[]}"#;

pub(crate) const REPORT: &str = "site 0 time 0 log 0 pending 0\n";

const USAGE: &str = "usage: helios COMMAND [WORDS]\n";

/// What a run over memory came to: the status, what was written, and how many bytes were not read.
#[derive(Drop)]
pub(crate) struct Outcome {
    pub(crate) status: u8,
    pub(crate) written: Vec<u8>,
    pub(crate) left: usize,
}

/// Runs the words over the input, both ends in pieces of so many bytes. The reads and the writes
/// with these numbers fail.
pub(crate) fn run_over(
    alloc: Global,
    words: &[&str],
    input: Vec<u8>,
    piece: usize,
    reads: &[u64],
    writes: &[u64],
) -> Result<Outcome, AllocError>
    requires { 0 < piece }
{
    run_in_room(alloc, words, input, (10_000, piece), reads, writes)
}

/// The same with room for so many bytes of output.
pub(crate) fn run_in_room(
    alloc: Global,
    words: &[&str],
    input: Vec<u8>,
    output: (usize, usize),
    reads: &[u64],
    writes: &[u64],
) -> Result<Outcome, AllocError>
    requires { 0 < output.1 }
{
    let (room, piece) = output;
    let mut texts = Vec::new(alloc);
    for word in words {
        texts.push(String::from_str(alloc, word)?)?;
    }
    let source = MemSource::new(input, piece, reads.to_vec(alloc)?);
    let sink = MemSink::new(alloc, room, piece, writes.to_vec(alloc)?)?;
    let mut disk = MemDisk::new(Vec::new(alloc), 0)?;
    outcome_of(
        alloc,
        &texts,
        source,
        sink,
        &mut disk,
        &mut Bench::new(alloc)?,
    )
}

/// What a run over this source, this sink, this disk and this bench comes to.
pub(crate) fn outcome_of(
    alloc: Global,
    words: &Vec<String>,
    mut source: MemSource,
    mut sink: MemSink,
    disk: &mut MemDisk,
    bench: &mut Bench,
) -> Result<Outcome, AllocError> {
    let status = run(alloc, words, &mut source, &mut sink, disk, bench);
    Ok(Outcome {
        status: status.0,
        written: sink.taken().to_vec(alloc)?,
        left: source.left().len(),
    })
}

#[test]
fn takes_its_words_and_no_others(rt: HostRuntime) -> Result<(), Fail> {
    let cases: [(&[&str], u8, &str); 26] = [
        (&["replay"], 0, REPORT),
        (&["replay", "--history"], 0, "[]\n"),
        (&[], 1, USAGE),
        (&["replay", "x"], 1, USAGE),
        (&["replay", "--history", "x"], 1, USAGE),
        (&["--history", "replay"], 1, USAGE),
        (&["check", "--history"], 1, USAGE),
        (&["audit", "x"], 1, USAGE),
        (&["weigh", "x"], 1, USAGE),
        (&["weights"], 1, USAGE),
        (&["history"], 1, USAGE),
        (&["trial"], 1, USAGE),
        (&["trial", ""], 1, USAGE),
        (&["trial", "01"], 1, USAGE),
        (&["trial", "-1"], 1, USAGE),
        (&["trial", "+1"], 1, USAGE),
        (&["trial", "18446744073709551616"], 1, USAGE),
        (&["trial", "1", "2"], 1, USAGE),
        (&["dump"], 1, USAGE),
        (&["dump", ""], 1, USAGE),
        (&["dump", "-1"], 1, USAGE),
        (&["dump", "00"], 1, USAGE),
        (&["dump", "32"], 1, USAGE),
        (&["dump", "0", "1"], 1, USAGE),
        (&["Replay"], 1, USAGE),
        (&["--help"], 1, USAGE),
    ];
    for (words, status, text) in cases {
        let input = EMPTY.as_bytes().to_vec(rt.alloc())?;
        let got = run_over(rt.alloc(), words, input, 1, &[], &[])?;
        assert_eq!(rt; got.status, status);
        assert_eq!(rt; got.written.as_slice(), text.as_bytes());
        let unread = if status == 1 { EMPTY.len() } else { 0 };
        assert_eq!(rt; got.left, unread);
    }
    Ok(())
}

#[test]
fn ends_by_each_fault(rt: HostRuntime) -> Result<(), Fail> {
    // The number of the read and of the write that fail; none has the number 99.
    let cases = [
        ("replay", 0, 99, 2, "fault read\n"),
        ("replay", 1, 99, 2, "fault read\n"),
        ("replay", 99, 0, 3, ""),
        ("replay", 99, 2, 3, "site 0 tim"),
        ("replay", 0, 1, 3, "fault"),
        ("check", 99, 0, 3, ""),
        ("x", 99, 0, 3, ""),
        ("x", 0, 99, 1, USAGE),
        // So many reads give the input and its end: one more would fail.
        ("replay", 23, 99, 0, REPORT),
    ];
    for (word, read, write, status, text) in cases {
        let input = EMPTY.as_bytes().to_vec(rt.alloc())?;
        let got = run_over(rt.alloc(), &[word], input, 5, &[read], &[write])?;
        assert_eq!(rt; got.status, status);
        assert_eq!(rt; got.written.as_slice(), text.as_bytes());
    }
    Ok(())
}
