// What stands on the bench after a run.
use crate::replays::{EVEN, schedule_text};
use crate::runs::{Outcome, outcome_of};
use disk_store::{Bench, Disk, MemDisk};
use helios_model::SiteId;
use outside_io::{MemSink, MemSource};
use std::alloc::{AllocError, Global};
use std::test::Fail;

/// The frame of a batch of one pull for site 0 at the reading 5000: its gate, its length and its bytes.
const PULL: &[u8] = b"\x01\0\0\0\x0b\x01\0\0\0\0\0\0\x13\x88\x02\0";

/// Runs the word over the input and the bench.
fn run_on(
    alloc: Global,
    word: &str,
    input: Vec<u8>,
    bench: &mut Bench,
) -> Result<Outcome, AllocError> {
    let mut words = Vec::new(alloc);
    words.push(String::from_str(alloc, word)?)?;
    let source = MemSource::new(input, 64, Vec::new(alloc));
    let sink = MemSink::new(alloc, 10_000, 64, Vec::new(alloc))?;
    let mut disk = MemDisk::new(Vec::new(alloc), 0)?;
    outcome_of(alloc, &words, source, sink, &mut disk, bench)
}

/// Whether the journal of site 1 has that frame behind its head, and then this gate.
fn has_pull(bench: &mut Bench, gate: u8) -> Result<bool, Fail> {
    let mut frame = [0u8; 17];
    let count = bench.disk(SiteId::of(1)).read_at(39, &mut frame)?;
    Ok(count == 17 && &frame[..16] == PULL && frame[16] == gate)
}

#[test]
fn a_replay_leaves_each_journal_on_its_disk(rt: HostRuntime) -> Result<(), Fail> {
    let cases: [(&[&str], u8, u8); 3] = [
        (&["1 pull 5000 0"], 0, 0),
        (&["1 pull 5000 0", "1 restart", "1 W 10 y"], 0, 1),
        (&["1 pull 5000 0", "1 push 5000 9"], 5, 0),
    ];
    let mut bench = Bench::new(rt.alloc())?;
    for (steps, status, gate) in cases {
        let input = schedule_text(rt.alloc(), EVEN, steps)?;
        let got = run_on(rt.alloc(), "replay", input, &mut bench)?;
        assert_eq!(rt; got.status, status);
        assert!(rt; has_pull(&mut bench, gate)?);
    }
    let checked = run_on(rt.alloc(), "check", Vec::new(rt.alloc()), &mut bench)?;
    assert_eq!(rt; checked.status, 5);
    assert!(rt; has_pull(&mut bench, 0)?);
    Ok(())
}
