ghost use Rattle.std.specs.Prelude.{◌≡◌, ◌≤◌, ◌<◌, ◌^◌, ◌+◌, ◌++◌, ◌∷◌, [], ℕ, List, Some, None, length, if◌then◌else◌, IfOk, IfSome};
ghost use Rattle.std.specs.Option.{ForSome};
ghost use Rattle.disk_store.specs.Disk.{at_rest};
ghost use Rattle.disk_store.specs.Outlook.{never};
ghost use Rattle.node_journal.specs.Frames.{IsReadTo, StandsFor};
ghost use Rattle.node_journal.specs.Appending.{IsReady, end_of, is_kept};

use disk_store::{Disk, FileDisk, Keep, MemDisk, RecordDisk, Stop};
use helios_model::Bytes;
use node_journal::laws::stopped_disk;
use node_journal::{Found, Framed, Journal, JournalFault, Reading};
use outside_io::Failed;
use std::alloc::{AllocError, Global};
use std::fs;
use std::test::Fail;

/// The payload `aa`.
fn frame_aa(alloc: Global) -> Result<Framed, AllocError>
    ensures { IfOk result (λ frame. frame ≡ 170 ∷ []) }
{
    let mut bytes = Vec::new(alloc);
    bytes.push(0xaa)?;
    Framed::new(Bytes::new(bytes))
}

/// A disk in memory with these bytes and room for more.
fn memory(alloc: Global, bytes: &[u8]) -> Result<MemDisk, AllocError>
    ensures { IfOk result (λ disk. disk ≡ record {
      disk = at_rest bytes.now;
      room = length bytes.now + 16;
      fate = record { script = None; fails = []; calls = 0; faults = 0 };
    }) }
{
    let held = Vec::from_slice(alloc, bytes)?;
    let room = held.len() as u64;
    let mut disk = MemDisk::new(held, room)?;
    disk.make_room(16)?;
    Ok(disk)
}

/// Whether a disk, which has at most 16 bytes, reads as these.
fn reads_as<D: Disk>(disk: &mut D, wanted: &[u8]) -> bool
    ensures { D.state disk.new ≡ D.state disk.old }
{
    let mut buffer = [0u8; 16];
    match disk.read_at(0, &mut buffer) {
        Ok(count) => &buffer[..count] == wanted,
        Err(_) => false,
    }
}

/// Opens a journal, and gives it at its end where it has no payload.
fn at_end<D: Disk>(alloc: Global, disk: &mut D, limit: u64) -> Result<Option<Journal>, JournalFault>
    requires some { 1 ≤ limit }
    requires bounded { limit ≤ 2 ^ 40 }
    ensures ready { IfOk result (λ found. IfSome found (λ journal. ForSome (D.state disk.new) (λ d. IsReady d journal.gate))) }
    ensures journal { IfOk result (λ found. IfSome found (λ journal. IfSome (D.state disk.old) (λ _. journal ≡ record { gate = 0; limit = limit }))) }
    ensures quiet { IfSome (D.outlook disk.old) (λ o. o.failing ≡ never → D.outlook disk.new ≡ Some o) }
{
    match Journal::open(disk, limit)?.next(alloc, disk)? {
        Found::Last(journal) => Ok(Some(journal)),
        Found::Frame {
            reading: _reading,
            at: _at,
            payload: _payload,
        } => Ok(None),
    }
}

/// Adds a payload to the journal of an empty disk, and says whether the disk reads as one closed gate before and
/// as the payload `aa` after.
fn add_first<D: Disk>(
    alloc: Global,
    disk: &mut D,
    limit: u64,
    frame: &Framed,
) -> Result<bool, JournalFault>
    requires some { 1 ≤ limit }
    requires bounded { limit ≤ 2 ^ 40 }
{
    let Some(journal) = at_end(alloc, disk, limit)? else {
        return Ok(false);
    };
    let made = reads_as(disk, b"\0");
    let _journal = journal.append(disk, frame)?;
    Ok(made && reads_as(disk, b"\x01\0\0\0\x01\xaa\0"))
}

/// The first payload of a journal that is opened anew, and its place.
fn first_payload<D: Disk>(
    alloc: Global,
    disk: &mut D,
) -> Result<Option<(u64, Bytes)>, JournalFault> {
    match Journal::open(disk, 1000)?.next(alloc, disk)? {
        Found::Last(_) => Ok(None),
        Found::Frame { at, payload, .. } => Ok(Some((at, payload))),
    }
}

/// The reading behind the frame at its gate, where that stands at this place and has this payload.
fn past_frame<D: Disk>(
    reading: Reading,
    alloc: Global,
    disk: &mut D,
    place: u64,
    wanted: &[u8],
) -> Result<Option<Reading>, JournalFault>
    requires { ForSome (D.state disk.old) (λ d. reading.gate < length d.bytes) }
    ensures { IfOk result (λ found. IfSome found (λ reading. ForSome (D.state disk.new) (λ d. reading.gate < length d.bytes))) }
{
    match reading.next(alloc, disk)? {
        Found::Frame {
            reading,
            at,
            payload,
        } => {
            if at != place || payload.items() != wanted {
                return Ok(None);
            }
            Ok(Some(reading))
        }
        Found::Last(_) => Ok(None),
    }
}

/// Whether a journal has the payloads `aa` and `bb cc`, at the places 0 and 6, and ends there.
fn has_two<D: Disk>(alloc: Global, disk: &mut D) -> Result<bool, JournalFault> {
    let reading = Journal::open(disk, 100)?;
    let Some(reading) = past_frame(reading, alloc, disk, 0, b"\xaa")? else {
        return Ok(false);
    };
    let Some(reading) = past_frame(reading, alloc, disk, 6, b"\xbb\xcc")? else {
        return Ok(false);
    };
    Ok(matches!(reading.next(alloc, disk), Ok(Found::Last(_))))
}

#[test]
fn an_empty_disk_becomes_a_closed_gate(rt: HostRuntime) -> Result<(), Fail> {
    let alloc = rt.alloc();
    let mut disk = memory(alloc, b"")?;
    assert!(rt; at_end(alloc, &mut disk, 7)?.is_some() && reads_as(&mut disk, b"\0"));
    let mut record = RecordDisk::new(Vec::new(alloc), 16, 64)?;
    assert!(rt; at_end(alloc, &mut record, 7)?.is_some() && reads_as(&mut record, b"\0"));
    Ok(())
}

#[test]
fn a_payload_is_added_up_to_the_limit(rt: HostRuntime) -> Result<(), Fail> {
    let alloc = rt.alloc();
    let frame = frame_aa(alloc)?;
    let mut disk = memory(alloc, b"")?;
    assert_eq!(rt; add_first(alloc, &mut disk, 7, &frame), Ok(true));
    let mut record = RecordDisk::new(Vec::new(alloc), 16, 64)?;
    assert_eq!(rt; add_first(alloc, &mut record, 7, &frame), Ok(true));
    let mut small = memory(alloc, b"")?;
    let full = add_first(alloc, &mut small, 6, &frame);
    assert_eq!(rt; full, Err(JournalFault::JournalFull));
    assert!(rt; reads_as(&mut small, b"\0"));
    Ok(())
}

#[test]
fn payloads_are_read_in_order(rt: HostRuntime) -> Result<(), Fail> {
    let alloc = rt.alloc();
    let mut disk = memory(alloc, b"\x01\0\0\0\x01\xaa\x01\0\0\0\x02\xbb\xcc\0")?;
    assert!(rt; has_two(alloc, &mut disk)?);
    Ok(())
}

/// Adds a payload to a disk that stops at one of the four calls, and lets it crash.
fn add_and_crash(
    disk: &mut MemDisk,
    journal: Journal,
    frame: &Framed,
    stop: Stop,
) -> Result<Journal, JournalFault>
    requires ready { IsReady disk.old.disk journal.gate }
    requires fails { disk.old.fate.fails ≡ [] }
    requires some { 1 ≤ stop.call }
    requires few { stop.call ≤ 4 }
    requires room { end_of journal.gate frame.now ≤ disk.old.room }
    requires limit { end_of journal.gate frame.now ≤ journal.limit }
    ensures failed { result ≡ Err JournalFault.DiskFailed }
    ensures stands { (payloads : List (List ℕ)) → IsReadTo disk.old.disk.bytes journal.gate payloads →
        StandsFor disk.new.disk.bytes (if is_kept stop.call stop.keep then payloads ++ frame.now ∷ [] else payloads) }
{
    stopped_disk();
    disk.script(stop);
    let answer = journal.append(disk, frame);
    disk.crash();
    answer
}

/// What a stop at this call of an `append` leaves, and whether the payload is there then.
fn stopped(alloc: Global, call: u8, keep: Keep, wanted: &[u8]) -> Result<(bool, bool), JournalFault>
    requires some { 1 ≤ call }
    requires few { call ≤ 4 }
{
    let mut disk = memory(alloc, b"")?;
    let frame = frame_aa(alloc)?;
    let Some(journal) = at_end(alloc, &mut disk, 100)? else {
        return Ok((false, false));
    };
    let failed = add_and_crash(&mut disk, journal, &frame, Stop { call, keep }).is_err();
    let left = reads_as(&mut disk, wanted);
    let added = match first_payload(alloc, &mut disk)? {
        Some((at, payload)) => at == 0 && payload.items() == [0xaa].as_slice(),
        None => false,
    };
    Ok((failed && left, added))
}

#[test]
fn a_stop_leaves_the_list_before_or_after(rt: HostRuntime) -> Result<(), Fail> {
    let framed = b"\0\0\0\0\x01\xaa\0".as_slice();
    let opened = b"\x01\0\0\0\x01\xaa\0".as_slice();
    let frame_stopped = [
        (Keep::All, framed, false),
        (Keep::Nothing, b"\0".as_slice(), false),
        (Keep::Byte(0), b"\0\0\0\0\0\0\0".as_slice(), false),
        (
            Keep::Byte(1),
            b"\0\x01\x01\x01\x01\x01\x01".as_slice(),
            false,
        ),
        (
            Keep::Byte(255),
            b"\0\xff\xff\xff\xff\xff\xff".as_slice(),
            false,
        ),
    ];
    let gate_stopped = [
        (Keep::All, opened, true),
        (Keep::Nothing, framed, false),
        (Keep::Byte(0), framed, false),
        (Keep::Byte(1), opened, true),
        (Keep::Byte(255), b"\xff\0\0\0\x01\xaa\0".as_slice(), false),
    ];
    for call in 1..5u8 {
        let table = if call <= 2 {
            frame_stopped
        } else {
            gate_stopped
        };
        for (keep, left, added) in table {
            assert_eq!(rt; stopped(rt.alloc(), call, keep, left)?, (true, added));
        }
    }
    Ok(())
}

/// A disk that says that it has eight bytes, gives the first six of them, and tells nothing.
#[derive(Drop)]
struct ShortDisk;

impl Disk for ShortDisk {
    ghost state = { λ _. None };

    ghost past = { λ _. None };

    ghost outlook = { λ _. None };

    ghost keeps = { λ _. None };

    ghost faults = { λ _. 0 };

    fn len(&mut self) -> Result<u64, Failed> {
        Ok(8)
    }

    fn read_at(&mut self, at: u64, into: &mut [u8]) -> Result<usize, Failed> {
        let bytes = b"\x01\0\0\0\x02\xaa".as_slice();
        let rest = bytes.split_at(bytes.len().min(at as usize)).1;
        let count = rest.len().min(into.len());
        into[..count].copy_from_slice(&rest[..count]);
        Ok(count)
    }

    fn write_at(&mut self, _at: u64, _from: &[u8]) -> Result<(), Failed> {
        Ok(())
    }

    fn sync(&mut self) -> Result<(), Failed> {
        Ok(())
    }
}

#[test]
fn an_open_gate_that_leads_nowhere_is_damage(rt: HostRuntime) -> Result<(), Fail> {
    let alloc = rt.alloc();
    let damaged = Some(JournalFault::Damaged { at: 0 });
    // No whole length, a length of 20,000,001, and no next gate.
    for image in [
        b"\x01\0\0\0".as_slice(),
        b"\x01\x01\x31\x2d\x01\xaa\0".as_slice(),
        b"\x01\0\0\0\x01\xaa".as_slice(),
    ] {
        let mut disk = memory(alloc, image)?;
        assert_eq!(rt; first_payload(alloc, &mut disk).err(), damaged);
    }
    assert_eq!(rt; first_payload(alloc, &mut ShortDisk).err(), damaged);
    Ok(())
}

#[test]
fn one_byte_is_no_payload(rt: HostRuntime) -> Result<(), Fail> {
    let alloc = rt.alloc();
    let mut gate = memory(alloc, b"\x01")?;
    assert!(rt; first_payload(alloc, &mut gate)?.is_none() && reads_as(&mut gate, b"\0"));
    Ok(())
}

#[test]
fn faults_have_their_texts(rt: HostRuntime) -> Result<(), Fail> {
    for (fault, text) in [
        (JournalFault::DiskFailed, "the disk failed"),
        (
            JournalFault::Damaged { at: 17 },
            "the journal is damaged at byte 17",
        ),
        (JournalFault::JournalFull, "the journal is full"),
        (JournalFault::NoMemory, "no memory"),
    ] {
        assert_eq!(rt; format!(in rt.alloc(); "{fault}")?.as_str(), text);
    }
    Ok(())
}

#[test]
fn a_file_keeps_its_payload(rt: HostRuntime) -> Result<(), Fail> {
    let alloc = rt.alloc();
    let _earlier = fs::remove_file(&rt, "added.journal");
    let mut disk = FileDisk::over(&rt, "added.journal")?;
    let frame = frame_aa(alloc)?;
    assert_eq!(rt; add_first(alloc, &mut disk, 100, &frame), Ok(true));
    let mut again = FileDisk::over(&rt, "added.journal")?;
    assert!(rt; first_payload(alloc, &mut again)?.is_some());
    Ok(())
}
