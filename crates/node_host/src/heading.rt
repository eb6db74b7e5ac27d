//! The head that a journal begins with.
ghost use Rattle.std.specs.Prelude.{◌≡◌, ◌≢◌, ◌⊎◌, ◌<◌, ◌≤◌, [], Some, Ok, option_map, is_some, IfSome, IfOk, IfErr, OnOk, IsErrOf};
ghost use Rattle.std.specs.Option.{ForSome};
ghost use Rattle.outside_io.specs.Causes.{IsCount, Rose};
ghost use Rattle.disk_store.specs.Disk.{EachImage, IsImage};
ghost use Rattle.disk_store.specs.Moments.{AtEachMoment};
ghost use Rattle.disk_store.specs.Outlook.{never};
ghost use Rattle.node_journal.specs.Appending.{IsReady, IsBeforeOrAfter};
ghost use Rattle.node_journal.specs.Frames.{IsReadTo};
ghost use Rattle.log_records.specs.Heads.{head_bytes, head_of};
ghost use Rattle.node_host.specs.Opening.{LeavesHead, RefusesHead};
ghost use Rattle.node_journal.specs.Devices.{SameRoom, StaysQuiet};

use crate::HostFault;
use disk_store::Disk;
use helios_model::{Bytes, SiteId};
use log_records::{DecodeFault, Head, decode_head, encode_head};
use node_journal::{Framed, Journal};
use std::alloc::Global;

/// Tests the payload that a journal begins with: a head of the plan with this fingerprint, and of this site of it. Damaged
/// where it is no head, WrongPlan or WrongSite where it is another one's.
pub(crate) fn test_head(
    fingerprint: [u8; 32],
    site: SiteId,
    payload: &Bytes,
) -> Result<(), HostFault>
    ensures head { OnOk result (head_of payload.now ≡ Ok (record { version = 1; fingerprint = fingerprint; site = site })) }
    ensures none { IfErr result (RefusesHead fingerprint site payload.now) }
{
    let head = match decode_head(payload.items()) {
        Ok(head) => head,
        Err(DecodeFault::NoMemory) => return Err(HostFault::NoMemory),
        Err(_) => return Err(HostFault::Damaged { at: 0 }),
    };
    if head.version != 1 {
        return Err(HostFault::Damaged { at: 0 });
    }
    if head.fingerprint != fingerprint {
        return Err(HostFault::WrongPlan {
            kept: head.fingerprint,
            given: fingerprint,
        });
    }
    if head.site != site {
        return Err(HostFault::WrongSite {
            kept: head.site,
            given: site,
        });
    }
    Ok(())
}

/// Adds the head to a journal that holds nothing. After a fault the journal is to be opened again.
pub(crate) fn make_head<D: Disk>(
    alloc: Global,
    fingerprint: [u8; 32],
    site: SiteId,
    journal: Journal,
    disk: &mut D,
) -> Result<Journal, HostFault>
    requires ready { ForSome (D.state disk.old) (λ d. IsReady d journal.gate) }
    requires first { journal.gate ≡ 0 }
    ensures made { IfOk result (λ after. IfSome (D.state disk.old) (λ d. IsReadTo d.bytes journal.gate [] →
        ForSome (D.state disk.new) (LeavesHead (head_bytes (record { version = 1; fingerprint = fingerprint; site = site })) after.gate))) }
    ensures limit { IfOk result (λ after. after.limit ≡ journal.limit) }
    ensures any_moment { IfSome (D.state disk.old) (λ d. IsReadTo d.bytes journal.gate [] → AtEachMoment (D.past disk.old) (D.past disk.new) (D.state disk.new)
        (λ t. (t ≡ d) ⊎ EachImage t (IsBeforeOrAfter [] (head_bytes (record { version = 1; fingerprint = fingerprint; site = site }))))) }
    ensures faults { IfErr result (λ fault. (fault ≡ HostFault.DiskFailed) ⊎ (fault ≡ HostFault.JournalFull) ⊎ (fault ≡ HostFault.NoMemory)) }
    ensures full { IsErrOf result HostFault.JournalFull → journal.limit < 40 }
    ensures roomy { OnOk result (40 ≤ journal.limit) }
    ensures untouched { IsErrOf result HostFault.JournalFull → disk.new ≡ disk.old }
    ensures image { IfSome (D.state disk.new) (λ d. (D.state disk.new ≡ D.state disk.old) ⊎ IsImage d d.bytes) }
    ensures told { is_some (D.state disk.new) ≡ is_some (D.state disk.old) }
    ensures room { SameRoom (D.outlook disk.old) (D.outlook disk.new) }
    ensures later { D.faults disk.old ≤ D.faults disk.new }
    ensures keeps { D.keeps disk.new ≡ D.keeps disk.old }
    ensures count { IsCount (D.faults disk.old) → IsCount (D.faults disk.new) }
    ensures steady { IsErrOf result HostFault.DiskFailed ⊎ (D.faults disk.new ≡ D.faults disk.old) }
    ensures cause { IsErrOf result HostFault.DiskFailed → Rose (D.faults disk.old) (D.faults disk.new) }
    ensures quiet { StaysQuiet (D.outlook disk.old) (D.outlook disk.new) }
    ensures failed { IfSome (D.outlook disk.old) (λ o. IsErrOf result HostFault.DiskFailed → (o.failing ≢ never) ⊎ (o.room < 40)) }
{
    let head = Head {
        version: 1,
        fingerprint,
        site,
    };
    let bytes = encode_head(alloc, &head)?;
    let frame = Framed::new(bytes)?;
    let journal = journal.append(disk, &frame)?;
    Ok(journal)
}
