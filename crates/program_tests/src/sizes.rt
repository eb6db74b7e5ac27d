// The greatest cluster, batch and schedule that the limits allow, through `run`.
use crate::replays::{ALONE, EVEN};
use crate::runs::run_in_room;
use std::alloc::{AllocError, Global};
use std::test::Fail;

/// So many items behind each other, with commas between them.
fn listed(alloc: Global, item: &str, count: usize) -> Result<String, AllocError> {
    let mut text = String::new(alloc);
    for number in 0..count {
        if number > 0 {
            text.push(',')?;
        }
        text.push_str(item)?;
    }
    Ok(text)
}

/// The names of 32 sites, each of 32 bytes.
fn names(alloc: Global) -> Result<String, AllocError> {
    let mut text = String::new(alloc);
    for number in 10..42 {
        if number > 10 {
            text.push(',')?;
        }
        let name = format!(in alloc; "\"site-of-a-name-of-32-bytes---{number}-\"")?;
        text.push_str(name.as_str())?;
    }
    Ok(text)
}

/// The numbers of 32 sites.
fn numbers(alloc: Global) -> Result<String, AllocError> {
    let mut text = String::new(alloc);
    for number in 0..32 {
        if number > 0 {
            text.push(',')?;
        }
        let number = format!(in alloc; "{number}")?;
        text.push_str(number.as_str())?;
    }
    Ok(text)
}

/// A square of 32 rows of zeros.
fn square(alloc: Global) -> Result<String, AllocError> {
    let zeros = listed(alloc, "0", 32)?;
    let row = format!(in alloc; "[{zeros}]")?;
    listed(alloc, row.as_str(), 32)
}

/// The plan of 32 sites that are no time apart.
fn plan(alloc: Global) -> Result<String, AllocError> {
    let zeros = listed(alloc, "0", 32)?;
    let names = names(alloc)?;
    let square = square(alloc)?;
    let pair = numbers(alloc)?;
    format!(in alloc;
        "{{\"latency\":[{zeros}],\"names\":[{names}],\"offset\":[{square}],\"pair\":[{pair}],\"rtt\":[{square}],\"total\":0,\"version\":1}}"
    )
}

#[test]
fn the_greatest_schedule_is_replayed(rt: HostRuntime) -> Result<(), Fail> {
    let plan = plan(rt.alloc())?;
    let pulls = listed(rt.alloc(), "{\"at\":2,\"pull\":0}", 13)?;
    let first = format!(in rt.alloc();
        "{{\"site\":31,\"inputs\":[{{\"at\":1,\"reads\":[],\"writes\":[[\"x\",\"v\"]]}},{{\"get\":\"x\"}},{{\"status\":\"31@1\"}},{pulls}]}}"
    )?;
    let restarts = listed(rt.alloc(), "{\"restart\":0}", 99_999)?;
    let input = format!(in rt.alloc();
        "{{\"plan\":{plan},\"steps\":[{first},{restarts}]}}"
    )?.into_bytes();
    let got = run_in_room(
        rt.alloc(),
        &["replay"],
        input,
        (4_000_000, 65_536),
        &[],
        &[],
    )?;
    let begin =
        "0 31 prepared 31@1\n0 31 value initial -\n0 31 state pending\n0 31 sent 0 1\n0 31 sent 1 1\n";
    let end = "\nsite 30 time 0 log 0 pending 0\nsite 31 time 2 log 1 pending 1\n";
    assert_eq!(rt; got.status, 0);
    assert!(rt; got.written.as_slice().starts_with(begin.as_bytes()));
    assert!(rt; got.written.as_slice().ends_with(end.as_bytes()));
    Ok(())
}

#[test]
fn the_greatest_matrix_is_planned(rt: HostRuntime) -> Result<(), Fail> {
    let names = names(rt.alloc())?;
    let square = square(rt.alloc())?;
    let input = format!(in rt.alloc(); "{{\"names\":[{names}],\"rtt\":[{square}]}}")?.into_bytes();
    let planned = run_in_room(rt.alloc(), &["plan"], input, (100_000, 4096), &[], &[])?;
    assert_eq!(rt; planned.status, 0);
    let judged = run_in_room(
        rt.alloc(),
        &["check"],
        planned.written,
        (100_000, 4096),
        &[],
        &[],
    )?;
    assert_eq!(rt; judged.status, 0);
    assert_eq!(rt; judged.written.as_slice(), b"optimal 0\n".as_slice());
    Ok(())
}

/// A schedule of so many requests at site 0 and this reading, each of which writes a key of its own.
fn requests(alloc: Global, plan: &str, reading: u64, count: u32) -> Result<Vec<u8>, AllocError> {
    let mut text = format!(in alloc; "{{\"plan\":{plan},\"steps\":[")?;
    for number in 0..count {
        if number > 0 {
            text.push(',')?;
        }
        let step = format!(in alloc;
            "{{\"site\":0,\"inputs\":[{{\"at\":{reading},\"reads\":[],\"writes\":[[\"k{number}\",\"\"]]}}]}}"
        )?;
        text.push_str(step.as_str())?;
    }
    text.push_str("]}")?;
    Ok(text.into_bytes())
}

#[test]
fn a_site_ends_with_its_clock(rt: HostRuntime) -> Result<(), Fail> {
    let input = requests(rt.alloc(), ALONE, u64::MAX, 65_538)?;
    let got = run_in_room(
        rt.alloc(),
        &["replay"],
        input,
        (10_000_000, 65_536),
        &[],
        &[],
    )?;
    let begin = "0 0 committed 0@4611686018427125760\n1 0 committed 0@4611686018427125762\n";
    let end =
        "\ncommit 0@4611686018427256832\nsite 0 time 4611686018427256833 log 131074 pending 0\n";
    assert_eq!(rt; got.status, 0);
    assert!(rt; got.written.as_slice().starts_with(begin.as_bytes()));
    assert!(rt; got.written.as_slice().ends_with(end.as_bytes()));
    Ok(())
}

#[test]
fn a_site_has_no_more_open_transactions_than_it_may(rt: HostRuntime) -> Result<(), Fail> {
    let input = requests(rt.alloc(), EVEN, 0, 65_537)?;
    let got = run_in_room(
        rt.alloc(),
        &["replay"],
        input,
        (10_000_000, 65_536),
        &[],
        &[],
    )?;
    let end =
        "\n65535 0 prepared 0@65536\n65536 0 pool-full\nsite 0 time 65536 log 65536 pending 65536\nsite 1 time 0 log 0 pending 0\n";
    assert_eq!(rt; got.status, 0);
    assert!(rt; got.written.as_slice().ends_with(end.as_bytes()));
    Ok(())
}
