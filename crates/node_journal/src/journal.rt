ghost use Rattle.std.specs.Prelude.{◌≡◌, ◌⊎◌, ◌↔◌, ◌&&◌, ◌+◌, ◌<◌, ◌≤◌, ◌∷◌, [], ◌++◌, List, ℕ, Some, length, option_map, is_ok, is_some, nat_le, if◌then◌else◌, IfSome, IfOk, IfErr, OnOk, OnErr, IsErrOf};
ghost use Rattle.std.specs.Option.{ForSome};
ghost use Rattle.outside_io.specs.Causes.{IsCount, Rose};
ghost use Rattle.disk_store.specs.Disk.{IsImage, EachImage, at_rest};
ghost use Rattle.disk_store.specs.Outlook.{never, outlook_next};
ghost use Rattle.disk_store.specs.Moments.{AtEachMoment};
ghost use Rattle.node_journal.specs.Frames.{IsSmall, IsReadTo, EndsAt};
ghost use Rattle.node_journal.specs.Appending.{IsReady, IsBeforeOrAfter, sealed, end_of, lasts, failed_state, spent, four_calls_later};
ghost use Rattle.node_journal.specs.Devices.{SameRoom, StaysQuiet};

use crate::device::write_durably;
use crate::{Framed, JournalFault};
use disk_store::Disk;
use std::marker::Model;

/// The gate that is passed.
const OPEN: [u8; 1] = [1];

/// A journal that was read to its end, at the gate behind its last payload.
#[derive(Drop)]
pub struct Journal {
    pub(crate) gate: u64,
    pub(crate) limit: u64,
}

impl Model for Journal {
    ghost use Rattle.node_journal.specs.Positions.{Position};

    ghost Value = { Position };

    ghost view = { λ j. record { gate = j.gate; limit = j.limit } };
}

impl Journal {
    /// Adds a payload. On Ok it is durable. After a fault the journal is to be opened again.
    pub fn append<D: Disk>(self, disk: &mut D, frame: &Framed) -> Result<Journal, JournalFault>
        // The disk reads as the call before left it, with nothing pending: the gate stands there and is not open.
        requires { ForSome (D.state disk.old) (λ d. IsReady d self.gate) }

        // On Ok nothing is pending, and the disk stands for one payload more.
        ensures sealed { OnOk result (D.state disk.new ≡ option_map (λ d. at_rest (sealed self.gate frame.now d.bytes)) (D.state disk.old)) }
        ensures added { OnOk result (IfSome (D.state disk.old) (λ d. (payloads : List (List ℕ)) → IsReadTo d.bytes self.gate payloads →
            EndsAt (sealed self.gate frame.now d.bytes) (self.gate + 5 + length frame.now) (payloads ++ frame.now ∷ []))) }
        ensures handed { IfOk result (λ journal. journal ≡ record { gate = self.gate + 5 + length frame.now; limit = self.limit }) }

        ensures ready { IfOk result (λ journal. ForSome (D.state disk.new) (λ d. IsReady d journal.gate)) }

        // At every moment each image stands for the payloads before, or for them and the new one.
        ensures any_moment { IfSome (D.state disk.old) (λ d. (payloads : List (List ℕ)) → IsReadTo d.bytes self.gate payloads →
            AtEachMoment (D.past disk.old) (D.past disk.new) (D.state disk.new) (λ t. EachImage t (IsBeforeOrAfter payloads frame.now))) }

        // At each exit the disk reads as one of its images, and tells what it told.
        ensures image { IfSome (D.state disk.new) (λ d. IsImage d d.bytes) }
        ensures told { is_some (D.state disk.new) ≡ is_some (D.state disk.old) }
        ensures room { SameRoom (D.outlook disk.old) (D.outlook disk.new) }

        ensures small { IsSmall frame.now }
        ensures full { (result ≡ Err JournalFault.JournalFull) ↔ (self.limit < end_of self.gate frame.now) }
        ensures untouched { IsErrOf result JournalFault.JournalFull → disk.new ≡ disk.old }
        ensures faults { IfErr result (λ fault. (fault ≡ JournalFault.DiskFailed) ⊎ (fault ≡ JournalFault.JournalFull)) }
        ensures later { D.faults disk.old ≤ D.faults disk.new }
        ensures keeps { D.keeps disk.new ≡ D.keeps disk.old }
        ensures count { IsCount (D.faults disk.old) → IsCount (D.faults disk.new) }
        ensures steady { IsErrOf result JournalFault.DiskFailed ⊎ (D.faults disk.new ≡ D.faults disk.old) }
        ensures cause { IsErrOf result JournalFault.DiskFailed → Rose (D.faults disk.old) (D.faults disk.new) }

        // Where the outlook is told, the answer and the disk after it are exactly these.
        ensures answer { IfSome (D.outlook disk.old) (λ o. end_of self.gate frame.now ≤ self.limit →
            is_ok result ≡ (nat_le (end_of self.gate frame.now) o.room && lasts 4 o.failing)) }
        ensures failed { IfSome (D.outlook disk.old) (λ o. IsErrOf result JournalFault.DiskFailed → D.state disk.new ≡
            (if nat_le (end_of self.gate frame.now) o.room
            then option_map (failed_state o.failing self.gate frame.now) (D.state disk.old) else D.state disk.old)) }
        ensures calls { OnOk result (D.outlook disk.new ≡ option_map four_calls_later (D.outlook disk.old)) }
        ensures spent { IfSome (D.outlook disk.old) (λ o. IsErrOf result JournalFault.DiskFailed →
            D.outlook disk.new ≡ Some (spent (end_of self.gate frame.now) o)) }
        ensures quiet { StaysQuiet (D.outlook disk.old) (D.outlook disk.new) }
    {
        let bytes = frame.bytes();
        let size = bytes.len() as u64;
        if self.limit.saturating_sub(self.gate) < size + 1 {
            return Err(JournalFault::JournalFull);
        }
        // The frame has to be durable first: behind a gate that is torn open, whatever stood there would count.
        write_durably(disk, self.gate + 1, bytes)?;
        write_durably(disk, self.gate, &OPEN)?;
        Ok(Journal {
            gate: self.gate + size,
            limit: self.limit,
        })
    }
}
