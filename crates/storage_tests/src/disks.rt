use disk_store::{Bench, Disk, Keep, MemDisk, RecordDisk, Stop};
use helios_model::SiteId;
use std::alloc::Global;
use std::test::Fail;

fn disk_of(alloc: Global, bytes: &[u8]) -> Result<MemDisk, Fail> {
    let held = bytes.to_vec(alloc)?;
    let room = held.len() as u64;
    let mut disk = MemDisk::new(held, room)?;
    disk.make_room(16)?;
    Ok(disk)
}

/// Whether a disk, which has at most 16 bytes, reads as these.
fn reads_as<D: Disk>(disk: &mut D, wanted: &[u8]) -> Result<bool, Fail> {
    let mut buffer = [0u8; 16];
    let count = disk.read_at(0, &mut buffer)?;
    Ok(disk.len()? == count as u64 && &buffer[..count] == wanted)
}

#[test]
fn a_crash_leaves_what_the_script_keeps(rt: HostRuntime) -> Result<(), Fail> {
    for (keep, left) in [
        (Keep::All, b"xbcyz".as_slice()),
        (Keep::Nothing, b"abcd".as_slice()),
        (Keep::Byte(9), b"\x09bc\x09\x09".as_slice()),
    ] {
        let mut disk = disk_of(rt.alloc(), b"abcd")?;
        disk.script(Stop { call: 3, keep });
        let written = disk.write_at(0, b"x").is_ok();
        let stopped = disk.len().unwrap_or(0) == 4 && disk.write_at(3, b"yz").is_err();
        let behind = disk.sync().is_err();
        disk.crash();
        assert!(rt; written && stopped && behind);
        assert!(rt; reads_as(&mut disk, left)?);
    }
    Ok(())
}

#[test]
fn calls_fail_by_their_numbers_and_past_the_room(rt: HostRuntime) -> Result<(), Fail> {
    let alloc = rt.alloc();
    let mut disk = MemDisk::new(Vec::new(alloc), 2)?;
    disk.fail_calls([1].to_vec(alloc)?);
    assert!(rt; disk.write_at(0, b"abc").is_err());
    assert!(rt; disk.write_at(0, b"a").is_err());
    disk.write_at(0, b"ab")?;
    assert!(rt; reads_as(&mut disk, b"ab")?);
    disk.clear();
    assert!(rt; reads_as(&mut disk, b"")?);
    Ok(())
}

#[test]
fn a_record_ends_with_its_memory(rt: HostRuntime) -> Result<(), Fail> {
    let alloc = rt.alloc();
    let mut disk = RecordDisk::new(b"ab".to_vec(alloc)?, 3, 4)?;
    disk.write_at(1, b"xyz")?;
    assert!(rt; disk.write_at(0, b"12").is_err());
    disk.sync()?;
    disk.write_at(0, b"1")?;
    assert!(rt; disk.sync().is_err());
    assert!(rt; reads_as(&mut disk, b"1xyz")?);
    Ok(())
}

#[test]
fn each_site_of_a_bench_has_its_disk(rt: HostRuntime) -> Result<(), Fail> {
    let mut bench = Bench::new(rt.alloc())?;
    bench.disk(SiteId::of(31)).make_room(4)?;
    assert!(rt; bench.disk(SiteId::of(30)).sync().is_ok());
    assert!(rt; reads_as(bench.disk(SiteId::of(31)), b"")?);
    bench.clear();
    assert!(rt; reads_as(bench.disk(SiteId::of(0)), b"")?);
    Ok(())
}
