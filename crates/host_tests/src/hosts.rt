// Plans and disks that the tests of hosts share.
ghost use Rattle.std.specs.Prelude.{◌≡◌, IfOk};
ghost use Rattle.helios_model.specs.Plans.{IsAccepted, count_of};

use commit_offsets::read_plan;
use disk_store::{Disk, MemDisk};
use helios_model::{Plan, first_short};
use std::alloc::{AllocError, Global};
use std::test::Fail;

/// Two sites, 100 microseconds from each other, that wait equally long.
pub(crate) const EVEN: &str =
    r#"{"latency":[100,100],"names":["A","B"],"offset":[[0,0],[0,0]],"pair":[1,0],"rtt":[[0,100],[100,0]],"total":200,"version":1}"#;

/// The fingerprint of this plan, as another program told it of its canonical text.
pub(crate) const OF_EVEN: [u8; 32] =
    *b"\x6d\xfb\x0e\x23\x66\x45\xdb\x68\x44\x96\xf2\xb2\x1e\x26\xba\x9c\x99\x15\x11\xb5\x54\x18\x54\xde\x0b\xf7\x58\x5c\x33\x84\xac\x7a";

/// That of the plan of the same two sites with the latencies 0 and 200.
pub(crate) const OF_UNEVEN: [u8; 32] =
    *b"\x92\xad\x12\x34\x22\x50\x97\x39\x08\x0d\xae\x58\xf8\xe0\x0d\xfb\x4d\xd0\xb6\x85\xf3\x14\x4e\xa7\xba\x8f\x98\xbb\x61\xc7\x62\x56";

/// The plan of a text, which has so many sites.
pub(crate) fn plan(alloc: Global, text: &str, count: u8) -> Result<Plan, Fail>
    ensures accepted { IfOk result IsAccepted }
    ensures count { IfOk result (λ plan. count_of plan ≡ count) }
{
    let (plan, _certificate) = read_plan(alloc, text.as_bytes())?;
    if plan.count() != count {
        return Err(Fail::from("so many sites"));
    }
    match first_short(&plan) {
        None => Ok(plan),
        Some(_) => Err(Fail::from("an accepted plan")),
    }
}

/// A disk with these bytes, and room for 1,000 more.
pub(crate) fn disk_of(alloc: Global, bytes: &[u8]) -> Result<MemDisk, AllocError> {
    let held = Vec::from_slice(alloc, bytes)?;
    let room = held.len() as u64;
    let mut disk = MemDisk::new(held, room)?;
    disk.make_room(1000)?;
    Ok(disk)
}

/// The bytes that a disk reads as.
pub(crate) fn bytes_on(alloc: Global, disk: &mut MemDisk) -> Result<Vec<u8>, Fail>
    ensures { disk.new.disk ≡ disk.old.disk }
{
    let mut bytes = [0u8; 1000];
    let count = disk.read_at(0, &mut bytes)?;
    Ok(bytes[..count].to_vec(alloc)?)
}

/// The head of a journal in its frame, and these bytes behind it.
pub(crate) fn headed(
    alloc: Global,
    fingerprint: [u8; 32],
    site: u8,
    behind: &[u8],
) -> Result<Vec<u8>, AllocError> {
    let mut bytes = b"\x01\0\0\0\x22\x01".to_vec(alloc)?;
    bytes.extend_from_slice(&fingerprint)?;
    bytes.push(site)?;
    bytes.extend_from_slice(behind)?;
    Ok(bytes)
}
