//! A batch that a host takes: sealed in the journal, then answered.
ghost use Rattle.std.specs.Prelude.{◌≡◌, ◌≢◌, ◌⊎◌, ◌&&◌, ◌<◌, ◌≤◌, ◌++◌, ◌∷◌, [], ℕ, List, All, Some, Err, length, option_map, is_ok, is_some, nat_le, if◌then◌else◌, IfSome, IfOk, IfErr, OnOk, IsErrOf};
ghost use Rattle.std.specs.Option.{ForSome};
ghost use Rattle.outside_io.specs.Causes.{IsCount, Rose};
ghost use Rattle.helios_model.specs.declared.entries.Entry.{Entry};
ghost use Rattle.helios_model.specs.Limits.{most_inputs};
ghost use Rattle.helios_model.specs.Node.{Node};
ghost use Rattle.helios_model.specs.Plans.{PlanData};
ghost use Rattle.helios_model.specs.Spellable.{IsSpellableReply};
ghost use Rattle.helios_model.specs.World.{grown, journaled};
ghost use Rattle.commit_rules.specs.Core.{IsCoreOf};
ghost use Rattle.disk_store.specs.Disk.{EachImage, IsImage};
ghost use Rattle.disk_store.specs.Moments.{AtEachMoment};
ghost use Rattle.disk_store.specs.Outlook.{never};
ghost use Rattle.node_journal.specs.Appending.{IsReady, end_of, failed_state, four_calls_later, lasts, spent};
ghost use Rattle.log_records.specs.Entries.{MayBeWritten};
ghost use Rattle.node_host.specs.Answering.{HasAnswered};
ghost use Rattle.node_journal.specs.Frames.{EndsAt};
ghost use Rattle.node_host.specs.Hosts.{DoesNotFit, HaveReadings, IsEndOf, IsHostOn, MayHold, payload_of, with_payload};
ghost use Rattle.node_host.specs.Journals.{AreAsked, HoldsBatches, frame_size};
ghost use Rattle.node_journal.specs.Devices.{SameRoom, StaysQuiet};

use crate::HostFault;
use crate::answering::Answered;
use crate::host::{Batched, Host};
use disk_store::Disk;
use helios_model::{Commits, Entries, Replies};
use log_records::{batches_are_read_again, encode_journaled, journaled_count, journaled_length};
use node_journal::{Framed, Journal};
use std::alloc::Global;

/// Adds the batch of the journaled entries, of which there are some, to the journal. It takes its memory first.
fn append_batch<D: Disk>(
    alloc: Global,
    journal: Journal,
    disk: &mut D,
    entries: &Entries,
) -> Result<Journal, HostFault>
    requires few { length entries.now ≤ most_inputs }
    requires some { 1 ≤ length (journaled entries.now) }
    requires written { All MayBeWritten entries.now }
    requires ready { ForSome (D.state disk.old) (λ d. IsReady d journal.gate) }
    ensures added { IfOk result (λ after. IfSome (D.state disk.old) (λ d. (payloads : List (List ℕ)) → EndsAt d.bytes journal.gate payloads
        → ForSome (D.state disk.new) (IsEndOf after.gate (with_payload payloads (journaled entries.now))))) }
    ensures ready { IfOk result (λ after. ForSome (D.state disk.new) (λ d. IsReady d after.gate)) }
    ensures limit { IfOk result (λ after. after.limit ≡ journal.limit) }
    ensures readings { IsErrOf result HostFault.NoMemory ⊎ HaveReadings (journaled entries.now) }
    ensures any_moment { IfSome (D.state disk.old) (λ d. (payloads : List (List ℕ)) → EndsAt d.bytes journal.gate payloads
        → AtEachMoment (D.past disk.old) (D.past disk.new) (D.state disk.new) (λ t. EachImage t (MayHold payloads (journaled entries.now)))) }
    ensures faults { IfErr result (λ fault. (fault ≡ HostFault.DiskFailed) ⊎ (fault ≡ HostFault.JournalFull) ⊎ (fault ≡ HostFault.NoMemory)) }
    ensures full { IsErrOf result HostFault.JournalFull → journal.limit < end_of journal.gate (payload_of entries.now) }
    ensures only_full { journal.limit < end_of journal.gate (payload_of entries.now) → IsErrOf result HostFault.JournalFull ⊎ IsErrOf result HostFault.NoMemory }
    ensures untouched { IsErrOf result HostFault.JournalFull → disk.new ≡ disk.old }
    ensures answer { IfSome (D.outlook disk.old) (λ o. end_of journal.gate (payload_of entries.now) ≤ journal.limit →
        IsErrOf result HostFault.NoMemory ⊎ (is_ok result ≡ (nat_le (end_of journal.gate (payload_of entries.now)) o.room && lasts 4 o.failing))) }
    ensures failed { IfSome (D.outlook disk.old) (λ o. IsErrOf result HostFault.DiskFailed → D.state disk.new ≡
        (if nat_le (end_of journal.gate (payload_of entries.now)) o.room
        then option_map (failed_state o.failing journal.gate (payload_of entries.now)) (D.state disk.old) else D.state disk.old)) }
    ensures calls { OnOk result (D.outlook disk.new ≡ option_map four_calls_later (D.outlook disk.old)) }
    ensures spent { IfSome (D.outlook disk.old) (λ o. IsErrOf result HostFault.DiskFailed →
        D.outlook disk.new ≡ Some (spent (end_of journal.gate (payload_of entries.now)) o)) }
    ensures image { IfSome (D.state disk.new) (λ d. (D.state disk.new ≡ D.state disk.old) ⊎ IsImage d d.bytes) }
    ensures told { is_some (D.state disk.new) ≡ is_some (D.state disk.old) }
    ensures room { SameRoom (D.outlook disk.old) (D.outlook disk.new) }
    ensures keeps { D.keeps disk.new ≡ D.keeps disk.old }
    ensures later { D.faults disk.old ≤ D.faults disk.new }
    ensures count { IsCount (D.faults disk.old) → IsCount (D.faults disk.new) }
    ensures steady { IsErrOf result HostFault.DiskFailed ⊎ (D.faults disk.new ≡ D.faults disk.old) }
    ensures cause { IsErrOf result HostFault.DiskFailed → Rose (D.faults disk.old) (D.faults disk.new) }
    ensures quiet { StaysQuiet (D.outlook disk.old) (D.outlook disk.new) }
{
    let payload = encode_journaled(alloc, entries)?;
    let frame = Framed::new(payload)?;
    let journal = journal.append(disk, &frame)?;
    Ok(journal)
}

/// Adds the batch of the journaled entries to the journal, where there are some.
fn seal<D: Disk>(
    alloc: Global,
    journal: Journal,
    disk: &mut D,
    entries: &Entries,
) -> Result<Journal, HostFault>
    requires few { length entries.now ≤ most_inputs }
    requires written { All MayBeWritten entries.now }
    requires ready { ForSome (D.state disk.old) (λ d. IsReady d journal.gate) }
    ensures added { IfOk result (λ after. IfSome (D.state disk.old) (λ d. (payloads : List (List ℕ)) → EndsAt d.bytes journal.gate payloads
        → ForSome (D.state disk.new) (IsEndOf after.gate (with_payload payloads (journaled entries.now))))) }
    ensures ready { IfOk result (λ after. ForSome (D.state disk.new) (λ d. IsReady d after.gate)) }
    ensures limit { IfOk result (λ after. after.limit ≡ journal.limit) }
    ensures any_moment { IfSome (D.state disk.old) (λ d. (payloads : List (List ℕ)) → EndsAt d.bytes journal.gate payloads
        → AtEachMoment (D.past disk.old) (D.past disk.new) (D.state disk.new) (λ t. EachImage t (MayHold payloads (journaled entries.now)))) }
    ensures readings { IsErrOf result HostFault.NoMemory ⊎ HaveReadings (journaled entries.now) }
    ensures idle { journaled entries.now ≡ [] → disk.new ≡ disk.old }
    ensures asked { IsErrOf result HostFault.DiskFailed → 1 ≤ length (journaled entries.now) }
    ensures faults { IfErr result (λ fault. (fault ≡ HostFault.DiskFailed) ⊎ (fault ≡ HostFault.JournalFull) ⊎ (fault ≡ HostFault.NoMemory)) }
    ensures full { IsErrOf result HostFault.JournalFull → (1 ≤ length (journaled entries.now)) × (journal.limit < end_of journal.gate (payload_of entries.now)) }
    ensures only_full { 1 ≤ length (journaled entries.now) → journal.limit < end_of journal.gate (payload_of entries.now)
        → IsErrOf result HostFault.JournalFull ⊎ IsErrOf result HostFault.NoMemory }
    ensures untouched { IsErrOf result HostFault.JournalFull → disk.new ≡ disk.old }
    ensures answer { IfSome (D.outlook disk.old) (λ o. 1 ≤ length (journaled entries.now) → end_of journal.gate (payload_of entries.now) ≤ journal.limit →
        IsErrOf result HostFault.NoMemory ⊎ (is_ok result ≡ (nat_le (end_of journal.gate (payload_of entries.now)) o.room && lasts 4 o.failing))) }
    ensures failed { IfSome (D.outlook disk.old) (λ o. IsErrOf result HostFault.DiskFailed → D.state disk.new ≡
        (if nat_le (end_of journal.gate (payload_of entries.now)) o.room
        then option_map (failed_state o.failing journal.gate (payload_of entries.now)) (D.state disk.old) else D.state disk.old)) }
    ensures calls { OnOk result (1 ≤ length (journaled entries.now) → D.outlook disk.new ≡ option_map four_calls_later (D.outlook disk.old)) }
    ensures spent { IfSome (D.outlook disk.old) (λ o. IsErrOf result HostFault.DiskFailed →
        D.outlook disk.new ≡ Some (spent (end_of journal.gate (payload_of entries.now)) o)) }
    ensures image { IfSome (D.state disk.new) (λ d. (D.state disk.new ≡ D.state disk.old) ⊎ IsImage d d.bytes) }
    ensures told { is_some (D.state disk.new) ≡ is_some (D.state disk.old) }
    ensures room { SameRoom (D.outlook disk.old) (D.outlook disk.new) }
    ensures keeps { D.keeps disk.new ≡ D.keeps disk.old }
    ensures later { D.faults disk.old ≤ D.faults disk.new }
    ensures count { IsCount (D.faults disk.old) → IsCount (D.faults disk.new) }
    ensures steady { IsErrOf result HostFault.DiskFailed ⊎ (D.faults disk.new ≡ D.faults disk.old) }
    ensures cause { IsErrOf result HostFault.DiskFailed → Rose (D.faults disk.old) (D.faults disk.new) }
    ensures quiet { StaysQuiet (D.outlook disk.old) (D.outlook disk.new) }
{
    if journaled_count(entries) == 0 {
        return Ok(journal);
    }
    append_batch(alloc, journal, disk, entries)
}

impl Host {
    /// Seals the journaled ones of 1 to 16 entries in the journal, and then answers all of them in their order. Without a journaled entry no
    /// call is made on the disk. After a fault the journal is to be opened again.
    pub fn batch<D: Disk>(
        self,
        alloc: Global,
        disk: &mut D,
        entries: Entries,
    ) -> Result<Batched, HostFault>
        requires some { 1 ≤ length entries }
        requires few { length entries ≤ most_inputs }
        requires each { AreAsked self.core.plan self.core.site entries }
        // The disk reads as the call before left it, with nothing pending: the gate stands there and is not open.
        requires ready { ForSome (D.state disk.old) (λ d. IsReady d self.gate) }

        // On Ok the host is the node after the entries, with that node's replies and Commits, and each image holds the batch.
        ensures answers { IfOk result (λ b. (n : Node) → IsCoreOf self.core self.core.plan n → HasAnswered self.core.plan n entries b.host.core b.replies b.commits) }
        ensures spelled { IfOk result (λ b. All IsSpellableReply b.replies) }
        ensures stands { IfOk result (λ b. IfSome (D.state disk.old) (λ d. (batches : List (List Entry)) → IsHostOn self batches d
            → ForSome (D.state disk.new) (IsHostOn b.host (grown batches (journaled entries))))) }
        ensures ready { IfOk result (λ b. ForSome (D.state disk.new) (λ d. IsReady d b.host.gate)) }
        ensures plan { IfOk result (λ b. b.host.core.plan ≡ self.core.plan) }
        ensures site { IfOk result (λ b. b.host.core.site ≡ self.core.site) }
        ensures limit { IfOk result (λ b. b.host.limit ≡ self.limit) }

        // At every moment each image holds the batches before, or these and the new one.
        ensures any_moment { IfSome (D.state disk.old) (λ d. (batches : List (List Entry)) → IsHostOn self batches d
            → AtEachMoment (D.past disk.old) (D.past disk.new) (D.state disk.new) (λ t. EachImage t (λ image.
            HoldsBatches self.core.plan self.core.site batches image ⊎ HoldsBatches self.core.plan self.core.site (grown batches (journaled entries)) image))) }

        // The same of payloads: those before, or these and that of the batch.
        ensures any_payloads { IfSome (D.state disk.old) (λ d. (payloads : List (List ℕ)) → EndsAt d.bytes self.gate payloads
            → AtEachMoment (D.past disk.old) (D.past disk.new) (D.state disk.new) (λ t. EachImage t (MayHold payloads (journaled entries)))) }

        ensures readings { IsErrOf result HostFault.NoMemory ⊎ HaveReadings (journaled entries) }
        ensures idle { journaled entries ≡ [] → disk.new ≡ disk.old }
        ensures asked { IsErrOf result HostFault.DiskFailed → 1 ≤ length (journaled entries) }
        ensures faults { IfErr result (λ fault. (fault ≡ HostFault.DiskFailed) ⊎ (fault ≡ HostFault.JournalFull) ⊎ (fault ≡ HostFault.NoMemory)) }
        ensures full { IsErrOf result HostFault.JournalFull → DoesNotFit self entries }
        ensures only_full { DoesNotFit self entries → IsErrOf result HostFault.JournalFull ⊎ IsErrOf result HostFault.NoMemory }
        ensures untouched { IsErrOf result HostFault.JournalFull → disk.new ≡ disk.old }

        // Where the outlook is told, the seal ends, and the disk is then, as after one `append` of the batch; want of memory may come before or behind it.
        ensures answer { IfSome (D.outlook disk.old) (λ o. 1 ≤ length (journaled entries) → end_of self.gate (payload_of entries) ≤ self.limit →
            IsErrOf result HostFault.NoMemory ⊎ (is_ok result ≡ (nat_le (end_of self.gate (payload_of entries)) o.room && lasts 4 o.failing))) }
        ensures failed { IfSome (D.outlook disk.old) (λ o. IsErrOf result HostFault.DiskFailed → D.state disk.new ≡
            (if nat_le (end_of self.gate (payload_of entries)) o.room
            then option_map (failed_state o.failing self.gate (payload_of entries)) (D.state disk.old) else D.state disk.old)) }
        ensures calls { OnOk result (1 ≤ length (journaled entries) → D.outlook disk.new ≡ option_map four_calls_later (D.outlook disk.old)) }
        ensures spent { IfSome (D.outlook disk.old) (λ o. IsErrOf result HostFault.DiskFailed →
            D.outlook disk.new ≡ Some (spent (end_of self.gate (payload_of entries)) o)) }

        // At each exit the disk reads as one of its images, and tells what it told.
        ensures image { IfSome (D.state disk.new) (λ d. (D.state disk.new ≡ D.state disk.old) ⊎ IsImage d d.bytes) }
        ensures told { is_some (D.state disk.new) ≡ is_some (D.state disk.old) }
        ensures room { SameRoom (D.outlook disk.old) (D.outlook disk.new) }
        ensures keeps { D.keeps disk.new ≡ D.keeps disk.old }
        ensures later { D.faults disk.old ≤ D.faults disk.new }
        ensures count { IsCount (D.faults disk.old) → IsCount (D.faults disk.new) }
        ensures steady { IsErrOf result HostFault.DiskFailed ⊎ (D.faults disk.new ≡ D.faults disk.old) }
        ensures cause { IsErrOf result HostFault.DiskFailed → Rose (D.faults disk.old) (D.faults disk.new) }
        ensures quiet { StaysQuiet (D.outlook disk.old) (D.outlook disk.new) }
    {
        batches_are_read_again();
        let Host {
            core,
            journal,
            fingerprint,
            site,
            count,
        } = self;
        let replies = Vec::with_capacity(alloc, entries.items().len())?;
        let journal = seal(alloc, journal, disk, &entries)?;
        let asked = Answered {
            core,
            replies,
            commits: Vec::new(alloc),
        };
        let Answered {
            core,
            replies,
            commits,
        } = asked.answer_all(entries.into_items())?;
        Ok(Batched {
            host: Host {
                core,
                journal,
                fingerprint,
                site,
                count,
            },
            replies: Replies::new(replies),
            commits: Commits::new(commits),
        })
    }
}

/// How many bytes the frame of a batch adds to a journal: none without a journaled entry. It takes no memory.
pub fn frame_length(entries: &Entries) -> u64
    requires few { length entries.now ≤ most_inputs }
    requires written { All MayBeWritten entries.now }
    ensures value { result ≡ frame_size (journaled entries.now) }
    ensures most { result ≤ 19415766 }
{
    if journaled_count(entries) == 0 {
        return 0;
    }
    journaled_length(entries) as u64 + 5
}
