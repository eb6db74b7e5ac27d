// How much a replay may write.
ghost use Rattle.std.specs.Prelude.{◌≤◌, ◌<◌, ◌+◌};

use crate::schedules::{EVEN, schedule};
use disk_store::Bench;
use schedule_replay::{ReplayRefusal, replay};
use std::alloc::{AllocError, Global};
use std::test::Fail;

/// Adds a request for so many writes, whose keys have three bytes and whose values have 1,024, but the last of them.
fn push_request(
    alloc: Global,
    text: &mut String,
    number: u8,
    writes: u8,
    last: usize,
) -> Result<(), AllocError>
    requires { writes ≤ 16 }
{
    text.push_str("{\"at\":1000,\"reads\":[],\"writes\":[")?;
    for place in 0..writes {
        let letter = char::from(b'a' + place);
        let is_last = place + 1 == writes;
        let value = vec![in alloc; b'v'; if is_last { last } else { 1024 }]?;
        text.push_str(format!(in alloc; "[\"{letter}{number}\",\"")?.as_str())?;
        for byte in value {
            text.push(char::from(byte))?;
        }
        text.push_str(if is_last { "\"]" } else { "\"]," })?;
    }
    text.push_str("]}")
}

/// Adds a step of full requests, so many from a number on, and behind them a smaller one for as many writes, the last of so many bytes.
fn push_requests(
    alloc: Global,
    text: &mut String,
    first: u8,
    count: u8,
    smaller: (u8, usize),
) -> Result<(), AllocError>
    requires few { first + count < 100 }
    requires writes { smaller.0 ≤ 16 }
{
    let (writes, last) = smaller;
    text.push_str("{\"site\":0,\"inputs\":[")?;
    for number in first..first + count {
        push_request(alloc, text, number, 16, 1024)?;
        text.push(',')?;
    }
    push_request(alloc, text, first + count, writes, last)?;
    text.push_str("]},")
}

/// Adds a step of so many pulls of the first site for the second, and one more.
fn push_pulls(text: &mut String, count: u8) -> Result<(), AllocError> {
    text.push_str("{\"site\":0,\"inputs\":[")?;
    for _ in 0..count {
        text.push_str("{\"at\":1000,\"pull\":1},")?;
    }
    text.push_str("{\"at\":1000,\"pull\":1}]},")
}

/// 64 full requests, whose records are in each of 253 messages; three more and a smaller one, whose last value has so many bytes; and a get.
fn steps(alloc: Global, last: usize) -> Result<String, AllocError> {
    let mut text = String::new(alloc);
    for step in 0..4u8 {
        push_requests(alloc, &mut text, 10 + 16 * step, 15, (16, 1024))?;
    }
    for _ in 0..15 {
        push_pulls(&mut text, 15)?;
    }
    push_pulls(&mut text, 12)?;
    push_requests(alloc, &mut text, 74, 3, (4, last))?;
    text.push_str("{\"site\":0,\"inputs\":[{\"get\":\"x\"}]}")?;
    Ok(text)
}

/// The last lines of the report, once the get was answered.
const END: &[u8] =
    b"\n21 0 value initial -\nsite 0 time 1067 log 68 pending 68\nsite 1 time 0 log 0 pending 0\n";

/// Whether the report ends with these lines, or the refusal.
fn ended(alloc: Global, last: usize) -> Result<Result<bool, ReplayRefusal>, Fail> {
    let steps = steps(alloc, last)?;
    let schedule = schedule(alloc, EVEN, steps.as_str())?;
    let mut bench = Bench::new(alloc)?;
    Ok(match replay(alloc, &schedule, &mut bench) {
        Ok(report) => Ok(report.text.items().ends_with(END)),
        Err(refusal) => Err(refusal),
    })
}

// Each message has 84 + 64 * (12 + 16 * 1,031) = 1,056,596 bytes, and the frame of a batch of r full requests has 6 + r * (11 + 16 * 1,030). With
// the head, the frames of the pulls and the lines of the report these come to 2^28 bytes before the get, where the last value has 510 of them.
#[test]
fn a_replay_is_full_past_two_to_the_28th_bytes(rt: HostRuntime) -> Result<(), Fail> {
    let alloc = rt.alloc();
    let ended = (ended(alloc, 510)?, ended(alloc, 511)?);
    let full = ReplayRefusal::ReplayFull { step: 21 };
    assert_eq!(rt; ended, (Ok(true), Err(full)));
    Ok(())
}
