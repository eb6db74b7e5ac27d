// What batches come to by the room that there is for them, what they add to the disk, and how long their frames are.
ghost use Rattle.std.specs.Prelude.{◌≡◌, ◌≤◌, ◌^◌, ◌+◌, All, IfOk, length};
ghost use Rattle.helios_model.specs.Plans.{PlanData, count_of};
ghost use Rattle.helios_model.specs.Step.{MayBeAsked};
ghost use Rattle.log_records.specs.Entries.{MayBeWritten};
ghost use Rattle.node_host.specs.Journals.{AreAsked};

use crate::hosts::{EVEN, OF_EVEN, bytes_on, headed, plan};
use disk_store::MemDisk;
use helios_model::{Bytes, Entries, Entry, Input, Key, SiteId};
use node_host::{Host, HostFault, frame_length};
use std::alloc::{AllocError, Global};
use std::test::Fail;

/// How many replies a batch has, or its fault.
type Ended = Result<usize, HostFault>;

/// The frame of a batch of one pull for the second site at the reading 5000, and the gate behind it.
const PULLED: &[u8] = b"\x01\0\0\0\x0b\x01\0\0\0\0\0\0\x13\x88\x02\x01\0";

/// A pull for the second site.
fn pull() -> Entry
    ensures asked { (plan : PlanData) → count_of plan ≡ 2 → MayBeAsked plan 0 result.input }
    ensures written { MayBeWritten result }
{
    Entry {
        reading: 5000,
        input: Input::Pull(SiteId::of(1)),
    }
}

/// A get, which no journal keeps.
fn get(alloc: Global) -> Result<Entry, Fail>
    ensures asked { IfOk result (λ e. (plan : PlanData) → count_of plan ≡ 2 → MayBeAsked plan 0 e.input) }
    ensures written { IfOk result MayBeWritten }
{
    match Key::new(Bytes::new(b"x".to_vec(alloc)?)) {
        Some(key) => Ok(Entry {
            reading: 5000,
            input: Input::Get(key),
        }),
        None => Err(Fail::from("a key")),
    }
}

/// Has the first of two sites take a batch of one entry behind the head of its journal, whose greatest length is the limit, on a disk with
/// this room. Gives how that ends, and what the disk reads as then.
fn batched(alloc: Global, limit: u64, room: u64, entry: Entry) -> Result<(Ended, Vec<u8>), Fail>
    requires asked { (plan : PlanData) → count_of plan ≡ 2 → MayBeAsked plan 0 entry.input }
    requires some { 1 ≤ limit }
    requires bounded { limit ≤ 2 ^ 40 }
{
    let plan = plan(alloc, EVEN, 2)?;
    let mut disk = MemDisk::new(Vec::new(alloc), room)?;
    let opened = Host::open(alloc, plan, SiteId::of(0), limit, &mut disk)?;
    let entries = Entries::new(vec![in alloc; entry]?);
    let ended = match opened.host.batch(alloc, &mut disk, entries) {
        Ok(batched) => Ok(batched.replies.items().len()),
        Err(fault) => Err(fault),
    };
    Ok((ended, bytes_on(alloc, &mut disk)?))
}

#[test]
fn a_batch_is_taken_where_its_frame_fits(rt: HostRuntime) -> Result<(), Fail> {
    let alloc = rt.alloc();
    let cases: [(u64, u64, Ended, &[u8]); 6] = [
        (40, 1000, Err(HostFault::JournalFull), b"\0"),
        (55, 1000, Err(HostFault::JournalFull), b"\0"),
        (56, 1000, Ok(1), PULLED),
        (1000, 40, Err(HostFault::DiskFailed), b"\0"),
        (1000, 55, Err(HostFault::DiskFailed), b"\0"),
        (1000, 56, Ok(1), PULLED),
    ];
    for (limit, room, ended, behind) in cases {
        let wanted = headed(alloc, OF_EVEN, 0, behind)?;
        assert_eq!(rt; batched(alloc, limit, room, pull())?, (ended, wanted));
    }
    Ok(())
}

#[test]
fn a_batch_that_no_journal_keeps_writes_nothing(rt: HostRuntime) -> Result<(), Fail> {
    let alloc = rt.alloc();
    let wanted = headed(alloc, OF_EVEN, 0, b"\0")?;
    assert_eq!(rt; batched(alloc, 40, 40, get(alloc)?)?, (Ok(1), wanted));
    Ok(())
}

/// A get, and so many pulls behind it.
fn pulls(alloc: Global, count: usize) -> Result<Entries, Fail>
    requires few { count ≤ 15 }
    ensures count { IfOk result (λ entries. length entries ≡ 1 + count) }
    ensures written { IfOk result (All MayBeWritten) }
{
    let mut entries = vec![in alloc; get(alloc)?]?;
    for _ in 0..count {
        entries.push(pull())?;
    }
    Ok(Entries::new(entries))
}

#[test]
fn a_frame_is_as_long_as_its_journaled_entries(rt: HostRuntime) -> Result<(), Fail> {
    let alloc = rt.alloc();
    let lengths = [
        frame_length(&pulls(alloc, 0)?),
        frame_length(&pulls(alloc, 1)?),
        frame_length(&pulls(alloc, 2)?),
        frame_length(&pulls(alloc, 15)?),
    ];
    assert_eq!(rt; lengths, [0, 16, 26, 156]);
    Ok(())
}
