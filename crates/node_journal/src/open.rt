ghost use Rattle.std.specs.Prelude.{◌≡◌, ◌≢◌, ◌⊎◌, ◌^◌, ◌<◌, ◌≤◌, [], Some, length, option_map, is_some, IfSome, IfOk, IfErr, IsErr, OnOk, IsErrOf};
ghost use Rattle.std.specs.Option.{ForSome};
ghost use Rattle.outside_io.specs.Causes.{HasCause, IsCount, Rose};
ghost use Rattle.disk_store.specs.Disk.{IsImage, IsAtRest, at_rest};
ghost use Rattle.disk_store.specs.Outlook.{never};
ghost use Rattle.disk_store.specs.Moments.{AtEachMoment};
ghost use Rattle.node_journal.specs.Frames.{IsReadTo};
ghost use Rattle.node_journal.specs.Opening.{IsUnwritten, KeepsPayloads, opened};
ghost use Rattle.node_journal.specs.Devices.{SameRoom, StaysQuiet};

use crate::device::write_durably;
use crate::{Journal, JournalFault, Reading};
use disk_store::Disk;
use outside_io::Failed;

/// The gate that ends a list.
const CLOSED: [u8; 1] = [0];

impl Journal {
    /// Opens the journal of a disk, and makes it where there are at most one byte. The limit is its greatest
    /// length, in bytes. It takes no memory.
    #[tactic(auto, using(crate::proofs::Opens::opened_kept, crate::proofs::Opens::opened_begun, crate::proofs::Opens::moments_at_rest, crate::proofs::Opens::opened_ready))]
    pub fn open<D: Disk>(disk: &mut D, limit: u64) -> Result<Reading, JournalFault>
        requires some { 1 ≤ limit }
        requires bounded { limit ≤ 2 ^ 40 }

        // On Ok nothing is pending, and the disk stands for what it stood for.
        ensures opened { OnOk result (D.state disk.new ≡ option_map (λ d. at_rest (opened d.bytes)) (D.state disk.old)) }
        ensures begins { OnOk result (IfSome (D.state disk.old) (λ d. IsReadTo (opened d.bytes) 0 [])) }
        ensures kept { OnOk result (IfSome (D.state disk.old) (λ d. KeepsPayloads d (at_rest (opened d.bytes)))) }
        ensures ready { OnOk result (ForSome (D.state disk.new) (λ d. IsAtRest d × (0 < length d.bytes))) }
        ensures reading { IfOk result (λ reading. reading ≡ record { gate = 0; limit = limit }) }

        // At every moment the disk is as it was before the first sync, or each image stands for what it stood for;
        // where nothing was pending before, each image always does.
        ensures any_moment { IfSome (D.state disk.old) (λ d.
            AtEachMoment (D.past disk.old) (D.past disk.new) (D.state disk.new) (λ t. (t ≡ d) ⊎ KeepsPayloads d t)) }
        ensures any_moment_at_rest { IfSome (D.state disk.old) (λ d. IsAtRest d →
            AtEachMoment (D.past disk.old) (D.past disk.new) (D.state disk.new) (λ t. KeepsPayloads d t)) }
        // Where there are more bytes than one, whatever they are, nothing is written.
        ensures unwritten { IfSome (D.state disk.old) (λ d. 1 < length d.bytes →
            AtEachMoment (D.past disk.old) (D.past disk.new) (D.state disk.new) (IsUnwritten d)) }

        // At each exit the disk reads as one of its images, and tells what it told.
        ensures image { IfSome (D.state disk.new) (λ d. IsImage d d.bytes) }
        ensures told { is_some (D.state disk.new) ≡ is_some (D.state disk.old) }
        ensures room { SameRoom (D.outlook disk.old) (D.outlook disk.new) }

        ensures faults { IfErr result (λ fault. fault ≡ JournalFault.DiskFailed) }
        ensures later { D.faults disk.old ≤ D.faults disk.new }
        ensures keeps { D.keeps disk.new ≡ D.keeps disk.old }
        ensures count { IsCount (D.faults disk.new) }
        ensures steady { IsErrOf result JournalFault.DiskFailed ⊎ (D.faults disk.new ≡ D.faults disk.old) }
        ensures cause { IsErrOf result JournalFault.DiskFailed → Rose (D.faults disk.old) (D.faults disk.new) }
        ensures failed { IfSome (D.outlook disk.old) (λ o. IsErr result → (o.failing ≢ never) ⊎ (o.room ≡ 0)) }
        ensures quiet { StaysQuiet (D.outlook disk.old) (D.outlook disk.new) }
    {
        ensure_first_gate(disk)?;
        Ok(Reading { gate: 0, limit })
    }
}

/// Makes what the disk reads as durable, and makes the first gate where there are at most one byte.
fn ensure_first_gate<D: Disk>(disk: &mut D) -> Result<(), Failed>
    ensures opened { OnOk result (D.state disk.new ≡ option_map (λ d. at_rest (opened d.bytes)) (D.state disk.old)) }
    ensures any_moment { IfSome (D.state disk.old) (λ d.
        AtEachMoment (D.past disk.old) (D.past disk.new) (D.state disk.new) (λ t. (t ≡ d) ⊎ KeepsPayloads d t)) }
    ensures unwritten { IfSome (D.state disk.old) (λ d. 1 < length d.bytes →
        AtEachMoment (D.past disk.old) (D.past disk.new) (D.state disk.new) (IsUnwritten d)) }
    ensures image { IfSome (D.state disk.new) (λ d. IsImage d d.bytes) }
    ensures told { is_some (D.state disk.new) ≡ is_some (D.state disk.old) }
    ensures room { SameRoom (D.outlook disk.old) (D.outlook disk.new) }
    ensures keeps { D.keeps disk.new ≡ D.keeps disk.old }
    ensures count { IsCount (D.faults disk.new) }
    ensures cause { HasCause (D.faults disk.old) (D.faults disk.new) result }
    ensures failed { IfSome (D.outlook disk.old) (λ o. IsErr result → (o.failing ≢ never) ⊎ (o.room ≡ 0)) }
    ensures quiet { StaysQuiet (D.outlook disk.old) (D.outlook disk.new) }
{
    // What is read from here on has to be what a crash leaves.
    disk.sync()?;
    if disk.len()? > 1 {
        return Ok(());
    }
    write_durably(disk, 0, &CLOSED)
}
