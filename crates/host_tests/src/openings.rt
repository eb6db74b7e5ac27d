// How openings end, by the bytes that a disk reads as, and what they leave.
ghost use Rattle.std.specs.Prelude.{◌<◌, ◌≤◌, ◌^◌};

use crate::hosts::{EVEN, OF_EVEN, OF_UNEVEN, bytes_on, disk_of, headed, plan};
use helios_model::SiteId;
use node_host::{Host, HostFault};
use std::alloc::Global;
use std::test::Fail;

/// How many batches an opening finds, or its fault.
type Ended = Result<u64, HostFault>;

/// Opens one of two sites over a disk with these bytes. Gives how that ends, and what the disk reads as then.
fn opening(alloc: Global, site: u8, limit: u64, bytes: &[u8]) -> Result<(Ended, Vec<u8>), Fail>
    requires here { site < 2 }
    requires some { 1 ≤ limit }
    requires bounded { limit ≤ 2 ^ 40 }
{
    let plan = plan(alloc, EVEN, 2)?;
    let mut disk = disk_of(alloc, bytes)?;
    let ended = match Host::open(alloc, plan, SiteId::of(site), limit, &mut disk) {
        Ok(opened) => Ok(opened.batches),
        Err(fault) => Err(fault),
    };
    Ok((ended, bytes_on(alloc, &mut disk)?))
}

#[test]
fn a_journal_has_room_for_its_head(rt: HostRuntime) -> Result<(), Fail> {
    let alloc = rt.alloc();
    let ended = (
        opening(alloc, 0, 39, b"")?,
        opening(alloc, 0, 40, b"")?,
        opening(alloc, 1, 40, b"\x01")?,
    );
    let wanted = (
        (Err(HostFault::JournalFull), b"\0".to_vec(alloc)?),
        (Ok(0), headed(alloc, OF_EVEN, 0, b"\0")?),
        (Ok(0), headed(alloc, OF_EVEN, 1, b"\0")?),
    );
    assert_eq!(rt; ended, wanted);
    Ok(())
}

/// Opens the first site over disks with these bytes, each of which stays as it is.
fn endings(alloc: Global, disks: &[Vec<u8>]) -> Result<(Vec<Ended>, bool), Fail> {
    let mut ended = Vec::new(alloc);
    let mut is_same = true;
    for bytes in disks {
        let (end, left) = opening(alloc, 0, 1000, bytes.as_slice())?;
        ended.push(end)?;
        is_same = is_same && left.as_slice() == bytes.as_slice();
    }
    Ok((ended, is_same))
}

/// What stands behind the head, and how the opening ends.
const BEHIND: [(&[u8], Ended); 13] = [
    (b"\0", Ok(0)),
    // A pull for the second site at the reading 5000.
    (b"\x01\0\0\0\x0b\x01\0\0\0\0\0\0\x13\x88\x02\x01\0", Ok(1)),
    // An open gate that leads past the end, and one that leads too far.
    (b"\x01", Err(HostFault::Damaged { at: 39 })),
    (b"\x01\0\0\0", Err(HostFault::Damaged { at: 39 })),
    (b"\x01\0\0\0\x02\x01\0", Err(HostFault::Damaged { at: 39 })),
    (
        b"\x01\x01\x31\x2d\x01\0",
        Err(HostFault::Damaged { at: 39 }),
    ),
    // Payloads that are no batch.
    (b"\x01\0\0\0\0\0", Err(HostFault::Damaged { at: 39 })),
    (b"\x01\0\0\0\x01\xaa\0", Err(HostFault::Damaged { at: 39 })),
    (
        b"\x01\0\0\0\x0c\x01\0\0\0\0\0\0\x13\x88\x02\x01\0\0",
        Err(HostFault::Damaged { at: 39 }),
    ),
    // A pull for the site itself, and for one that the plan has not.
    (
        b"\x01\0\0\0\x0b\x01\0\0\0\0\0\0\x13\x88\x02\0\0",
        Err(HostFault::Damaged { at: 39 }),
    ),
    (
        b"\x01\0\0\0\x0b\x01\0\0\0\0\0\0\x13\x88\x02\x02\0",
        Err(HostFault::Damaged { at: 39 }),
    ),
    // Damage behind a batch.
    (
        b"\x01\0\0\0\x0b\x01\0\0\0\0\0\0\x13\x88\x02\x01\x01\0\0\0\x01\xaa\0",
        Err(HostFault::Damaged { at: 55 }),
    ),
    (
        b"\x01\0\0\0\x0b\x01\0\0\0\0\0\0\x13\x88\x02\x01\x01",
        Err(HostFault::Damaged { at: 55 }),
    ),
];

#[test]
fn damage_behind_the_head_is_named_by_its_gate(rt: HostRuntime) -> Result<(), Fail> {
    let alloc = rt.alloc();
    let mut disks = Vec::new(alloc);
    let mut wanted = Vec::new(alloc);
    for (behind, ended) in BEHIND {
        disks.push(headed(alloc, OF_EVEN, 0, behind)?)?;
        wanted.push(ended)?;
    }
    assert_eq!(rt; endings(alloc, disks.as_slice())?, (wanted, true));
    Ok(())
}

/// Disks with another beginning than the head of the first site.
fn other_heads(alloc: Global) -> Result<Vec<Vec<u8>>, Fail> {
    let mut second_form = headed(alloc, OF_EVEN, 0, b"\0")?;
    if let Some(version) = second_form.get_mut(5) {
        *version = 2;
    }
    Ok(vec![in alloc;
        b"\x01\0\0\0".to_vec(alloc)?,
        b"\x01\0\0\0\x01\xaa\0".to_vec(alloc)?,
        second_form,
        headed(alloc, OF_EVEN, 32, b"\0")?,
        headed(alloc, OF_EVEN, 1, b"\x01")?,
        headed(alloc, OF_UNEVEN, 0, b"\0")?,
        headed(alloc, OF_UNEVEN, 1, b"\x01")?,
    ]?)
}

#[test]
fn a_head_of_another_plan_or_site_is_refused_before_damage_behind_it(
    rt: HostRuntime,
) -> Result<(), Fail> {
    let alloc = rt.alloc();
    let damaged = Err(HostFault::Damaged { at: 0 });
    let (kept, given) = (SiteId::of(1), SiteId::of(0));
    let wrong_site = Err(HostFault::WrongSite { kept, given });
    let (kept, given) = (OF_UNEVEN, OF_EVEN);
    let wrong_plan = Err(HostFault::WrongPlan { kept, given });
    let wanted = vec![in alloc;
        damaged, damaged, damaged, damaged, wrong_site, wrong_plan, wrong_plan,
    ]?;
    let disks = other_heads(alloc)?;
    assert_eq!(rt; endings(alloc, disks.as_slice())?, (wanted, true));
    Ok(())
}

#[test]
fn the_second_site_does_not_open_the_journal_of_the_first(rt: HostRuntime) -> Result<(), Fail> {
    let alloc = rt.alloc();
    let (_, journal) = opening(alloc, 0, 1000, b"")?;
    let ended = opening(alloc, 1, 1000, journal.as_slice())?;
    let (kept, given) = (SiteId::of(0), SiteId::of(1));
    assert_eq!(rt; ended, (Err(HostFault::WrongSite { kept, given }), journal));
    Ok(())
}
