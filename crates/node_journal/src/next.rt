ghost use Rattle.std.specs.Prelude.{◌≡◌, ◌≢◌, ◌⊎◌, ◌+◌, ◌^◌, ◌<◌, ◌≤◌, List, ℕ, Some, length, take, drop, option_map, IfSome, IfNone, IfOk, IfErr, IsErr, IsErrOf};
ghost use Rattle.std.specs.Option.{ForSome};
ghost use Rattle.outside_io.specs.Causes.{IsCount, Rose};
ghost use Rattle.disk_store.specs.Disk.{IsImage};
ghost use Rattle.disk_store.specs.Outlook.{never};
ghost use Rattle.node_journal.specs.Frames.{IsReadTo, most_payload};
ghost use Rattle.node_journal.specs.Gates.{HasLength};
ghost use Rattle.node_journal.specs.Reading.{Finds, ReadsOn, LeavesReady, Advances};
ghost use Rattle.node_journal.specs.Devices.{SameRoom, StaysQuiet};

use crate::framed::MOST_PAYLOAD;
use crate::gate::{Gate, read_gate};
use crate::{Found, Journal, JournalFault, Reading};
use disk_store::Disk;
use helios_model::Bytes;
use std::alloc::Global;

impl Reading {
    /// Reads the frame at the gate, or the end of the journal. It writes nothing.
    pub fn next<D: Disk>(self, alloc: Global, disk: &mut D) -> Result<Found, JournalFault>
        // The disk reads as the call before left it, so the gate stands there.
        requires { ForSome (D.state disk.old) (λ d. self.gate < length d.bytes) }

        ensures found { IfSome (D.state disk.old) (λ d. Finds d.bytes self result) }
        ensures read_on { IfSome (D.state disk.old) (λ d. (payloads : List (List ℕ)) → IsReadTo d.bytes self.gate payloads → ReadsOn d.bytes payloads result) }

        ensures ready { IfOk result (λ found. ForSome (D.state disk.new) (λ d. LeavesReady found d)) }
        // Each frame leads on, whatever the disk tells.
        ensures forward { IfOk result (λ found. Advances self found) }

        ensures image { IfSome (D.state disk.new) (λ d. IsImage d d.bytes) }
        ensures room { SameRoom (D.outlook disk.old) (D.outlook disk.new) }
        ensures same { D.state disk.new ≡ D.state disk.old }
        ensures same_past { D.past disk.new ≡ D.past disk.old }
        ensures not_full { result ≢ Err JournalFault.JournalFull }
        ensures later { D.faults disk.old ≤ D.faults disk.new }
        ensures keeps { D.keeps disk.new ≡ D.keeps disk.old }
        ensures count { IsCount (D.faults disk.new) }
        ensures steady { IsErrOf result JournalFault.DiskFailed ⊎ (D.faults disk.new ≡ D.faults disk.old) }
        ensures cause { IsErrOf result JournalFault.DiskFailed → Rose (D.faults disk.old) (D.faults disk.new) }
        ensures failed { IfSome (D.outlook disk.old) (λ o. IsErrOf result JournalFault.DiskFailed → o.failing ≢ never) }
        ensures quiet { StaysQuiet (D.outlook disk.old) (D.outlook disk.new) }
    {
        self.next_into(Vec::new(alloc), disk)
    }

    /// The same, with the payload in this buffer's memory, whatever it holds.
    pub fn next_into<D: Disk>(self, buffer: Vec<u8>, disk: &mut D) -> Result<Found, JournalFault>
        // The disk reads as the call before left it, so the gate stands there.
        requires { ForSome (D.state disk.old) (λ d. self.gate < length d.bytes) }

        ensures found { IfSome (D.state disk.old) (λ d. Finds d.bytes self result) }
        ensures read_on { IfSome (D.state disk.old) (λ d. (payloads : List (List ℕ)) → IsReadTo d.bytes self.gate payloads → ReadsOn d.bytes payloads result) }

        ensures ready { IfOk result (λ found. ForSome (D.state disk.new) (λ d. LeavesReady found d)) }
        // Each frame leads on, whatever the disk tells.
        ensures forward { IfOk result (λ found. Advances self found) }

        ensures image { IfSome (D.state disk.new) (λ d. IsImage d d.bytes) }
        ensures room { SameRoom (D.outlook disk.old) (D.outlook disk.new) }
        ensures same { D.state disk.new ≡ D.state disk.old }
        ensures same_past { D.past disk.new ≡ D.past disk.old }
        ensures not_full { result ≢ Err JournalFault.JournalFull }
        ensures later { D.faults disk.old ≤ D.faults disk.new }
        ensures keeps { D.keeps disk.new ≡ D.keeps disk.old }
        ensures count { IsCount (D.faults disk.new) }
        ensures steady { IsErrOf result JournalFault.DiskFailed ⊎ (D.faults disk.new ≡ D.faults disk.old) }
        ensures cause { IsErrOf result JournalFault.DiskFailed → Rose (D.faults disk.old) (D.faults disk.new) }
        ensures failed { IfSome (D.outlook disk.old) (λ o. IsErrOf result JournalFault.DiskFailed → o.failing ≢ never) }
        ensures quiet { StaysQuiet (D.outlook disk.old) (D.outlook disk.new) }
    {
        match read_gate(disk, self.gate)? {
            Gate::Closed => Ok(Found::Last(Journal {
                gate: self.gate,
                limit: self.limit,
            })),
            Gate::Cut => Err(JournalFault::Damaged { at: self.gate }),
            Gate::Length(size) => self.read_frame(buffer, disk, u64::from(size)),
        }
    }

    /// Reads the frame whose length stands behind the gate.
    fn read_frame<D: Disk>(
        self,
        buffer: Vec<u8>,
        disk: &mut D,
        size: u64,
    ) -> Result<Found, JournalFault>
        requires length { ForSome (D.state disk.old) (λ d. HasLength d.bytes self.gate size) }
        requires bounded { size < 2 ^ 32 }
        ensures found { IfSome (D.state disk.old) (λ d. Finds d.bytes self result) }
        ensures forward { IfOk result (λ found. Advances self found) }
        ensures room { SameRoom (D.outlook disk.old) (D.outlook disk.new) }
        ensures same { D.state disk.new ≡ D.state disk.old }
        ensures same_past { D.past disk.new ≡ D.past disk.old }
        ensures not_full { result ≢ Err JournalFault.JournalFull }
        ensures later { D.faults disk.old ≤ D.faults disk.new }
        ensures keeps { D.keeps disk.new ≡ D.keeps disk.old }
        ensures count { IsCount (D.faults disk.old) → IsCount (D.faults disk.new) }
        ensures steady { IsErrOf result JournalFault.DiskFailed ⊎ (D.faults disk.new ≡ D.faults disk.old) }
        ensures cause { IsErrOf result JournalFault.DiskFailed → Rose (D.faults disk.old) (D.faults disk.new) }
        ensures failed { IfSome (D.outlook disk.old) (λ o. IsErrOf result JournalFault.DiskFailed → o.failing ≢ never) }
        ensures quiet { StaysQuiet (D.outlook disk.old) (D.outlook disk.new) }
    {
        let damaged = JournalFault::Damaged { at: self.gate };
        if size > MOST_PAYLOAD {
            return Err(damaged);
        }
        let Some(end) = self.gate.checked_add(size + 6) else {
            // It would end behind every place that the disk's length can name.
            let _length = disk.len()?;
            return Err(damaged);
        };
        match read_payload(buffer, disk, self.gate + 5, size as usize)? {
            Some(payload) => Ok(Found::Frame {
                reading: Reading {
                    gate: end - 1,
                    limit: self.limit,
                },
                at: self.gate,
                payload,
            }),
            None => Err(damaged),
        }
    }
}

/// Reads so many bytes into a buffer where one more stands behind them; `None` where the disk gives fewer.
#[tactic(auto, using(crate::proofs::Founds::payload_whole, crate::proofs::Founds::payload_short))]
fn read_payload<D: Disk>(
    buffer: Vec<u8>,
    disk: &mut D,
    at: u64,
    size: usize,
) -> Result<Option<Bytes>, JournalFault>
    requires { size ≤ most_payload }
    ensures whole { IfOk result (λ found. IfSome found (λ payload. IfSome (D.state disk.old) (λ d. (at + size < length d.bytes) × (payload ≡ take size (drop at d.bytes))))) }
    ensures short { IfOk result (λ found. IfNone found (IfSome (D.state disk.old) (λ d. length d.bytes ≤ at + size))) }
    ensures size { IfOk result (λ found. IfSome found (λ payload. length payload ≡ size)) }
    ensures room { SameRoom (D.outlook disk.old) (D.outlook disk.new) }
    ensures same { D.state disk.new ≡ D.state disk.old }
    ensures same_past { D.past disk.new ≡ D.past disk.old }
    ensures faults { IfErr result (λ fault. (fault ≡ JournalFault.DiskFailed) ⊎ (fault ≡ JournalFault.NoMemory)) }
    ensures later { D.faults disk.old ≤ D.faults disk.new }
    ensures keeps { D.keeps disk.new ≡ D.keeps disk.old }
    ensures count { IsCount (D.faults disk.old) → IsCount (D.faults disk.new) }
    ensures steady { IsErrOf result JournalFault.DiskFailed ⊎ (D.faults disk.new ≡ D.faults disk.old) }
    ensures cause { IsErrOf result JournalFault.DiskFailed → Rose (D.faults disk.old) (D.faults disk.new) }
    ensures failed { IfSome (D.outlook disk.old) (λ o. IsErrOf result JournalFault.DiskFailed → o.failing ≢ never) }
    ensures quiet { StaysQuiet (D.outlook disk.old) (D.outlook disk.new) }
{
    // The byte behind the payload is the next gate: so the disk need not be asked for its length.
    let mut bytes = buffer;
    bytes.resize(size + 1, 0)?;
    let count = disk.read_at(at, &mut bytes)?;
    if count <= size {
        return Ok(None);
    }
    bytes.truncate(size);
    Ok(Some(Bytes::new(bytes)))
}
