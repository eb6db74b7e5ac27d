//! Batches that are taken again from a journal.
ghost use Rattle.std.specs.Prelude.{◌≡◌, ◌≢◌, ◌⊎◌, ◌^◌, ◌<◌, ◌≤◌, Err, Some, is_some, length, option_map, IfSome, IfOk, IfErr, IsErrOf};
ghost use Rattle.std.specs.Option.{ForSome};
ghost use Rattle.outside_io.specs.Causes.{IsCount, Rose};
ghost use Rattle.helios_model.specs.Limits.{most_sites};
ghost use Rattle.helios_model.specs.Plans.{count_of};
ghost use Rattle.disk_store.specs.Outlook.{never};
ghost use Rattle.node_host.specs.Opening.{HasRead, Interrupts, IsReadThrough, IsRecovered};
ghost use Rattle.node_journal.specs.Devices.{SameRoom, StaysQuiet};

use crate::HostFault;
use crate::recovery::Recovery;
use disk_store::Disk;
use helios_model::SiteId;
use node_journal::{Found, Journal, Reading};
use std::alloc::Global;

/// Takes the batches from a gate on, up to the end of the journal, for a site of a plan of so many sites. Each payload is read into the
/// buffer. It writes nothing. Damaged where a gate leads nowhere, or a payload is no batch of this site.
pub(crate) fn recover<D: Disk>(
    alloc: Global,
    count: u8,
    site: SiteId,
    first: Recovery,
    buffer: Vec<u8>,
    reading: Reading,
    disk: &mut D,
) -> Result<(Recovery, Journal), HostFault>
    requires few { count ≤ most_sites }
    requires count { count_of first.core.plan ≡ count }
    requires site { first.core.site ≡ site }
    requires here { ForSome (D.state disk.old) (λ d. reading.gate < length d.bytes) }
    requires room { first.batches < reading.gate }
    requires low { reading.gate < 2 ^ 64 }
    ensures through { IfOk result (λ r. IfSome (D.state disk.old) (λ d. HasRead first.core.plan site d.bytes reading.gate first → IsReadThrough first.core.plan site d.bytes r.1.gate r.0)) }
    ensures interrupted { IfErr result (λ fault. IfSome (D.state disk.old) (λ d. HasRead first.core.plan site d.bytes reading.gate first → Interrupts first.core.plan site d.bytes fault)) }
    ensures recovered { IfOk result (λ r. IsRecovered first.core.plan site first → IsRecovered first.core.plan site r.0) }
    ensures kept { IfOk result (λ r. is_some r.0.log ≡ is_some first.log) }
    ensures not_full { result ≢ Err HostFault.JournalFull }
    ensures plan { IfOk result (λ r. r.0.core.plan ≡ first.core.plan) }
    ensures site { IfOk result (λ r. r.0.core.site ≡ site) }
    ensures limit { IfOk result (λ r. r.1.limit ≡ reading.limit) }
    ensures same { D.state disk.new ≡ D.state disk.old }
    ensures same_past { D.past disk.new ≡ D.past disk.old }
    ensures room { SameRoom (D.outlook disk.old) (D.outlook disk.new) }
    ensures keeps { D.keeps disk.new ≡ D.keeps disk.old }
    ensures later { D.faults disk.old ≤ D.faults disk.new }
    ensures count { IsCount (D.faults disk.old) → IsCount (D.faults disk.new) }
    ensures steady { IsErrOf result HostFault.DiskFailed ⊎ (D.faults disk.new ≡ D.faults disk.old) }
    ensures cause { IsErrOf result HostFault.DiskFailed → Rose (D.faults disk.old) (D.faults disk.new) }
    ensures quiet { StaysQuiet (D.outlook disk.old) (D.outlook disk.new) }
    ensures failed { IfSome (D.outlook disk.old) (λ o. IsErrOf result HostFault.DiskFailed → o.failing ≢ never) }
{
    let mut recovery = first;
    let mut buffer = buffer;
    let mut reading = reading;
    'frames: loop {
        match reading.next_into(buffer, disk)? {
            Found::Last(journal) => return Ok((recovery, journal)),
            Found::Frame {
                reading: behind,
                at,
                payload,
            } => {
                recovery = recovery.take(alloc, count, site, at, &payload)?;
                buffer = payload.into_items();
                reading = behind;
            }
        }
    }
}
