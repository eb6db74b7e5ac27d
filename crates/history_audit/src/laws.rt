//! What every history that is printed and audited has in common.
ghost use Rattle.std.specs.Prelude.{◌≡◌, ℕ, List, All, Ok, Some, length, map};
ghost use Rattle.helios_model.specs.Serial.{IsSerial};
ghost use Rattle.helios_model.specs.declared.records.CommitEvent.{CommitEvent};
ghost use Rattle.json_text.specs.Text.{json_of};
ghost use Rattle.history_audit.specs.Auditing.{audit_of};
ghost use Rattle.history_audit.specs.Kept.{IsKept};
ghost use Rattle.history_audit.specs.Printing.{IsDated, history_data, item_of};
ghost use Rattle.history_audit.specs.Reading.{history_of_text};
ghost use Rattle.history_audit.specs.declared.verdict.AuditVerdict.TheVariants.{Serial};

use helios_model::{ids_are_read_again, versions_are_read_again};

/// A text that says what is printed of a serial history is read as its transactions.
#[tactic(auto, using(crate::proofs::ReadAgain::history_read_again))]
pub fn each_serial_history_is_read_again()
    ensures { (events : List CommitEvent) (text : List ℕ) → IsSerial events → All IsKept events → All IsDated events
        → json_of text ≡ Some (history_data events) → history_of_text text ≡ Ok (map item_of events) }
{
    ids_are_read_again();
    versions_are_read_again();
}

/// The transactions of a serial history pass the audit.
#[tactic(auto, using(crate::proofs::Passing::passes))]
pub fn each_serial_history_passes()
    ensures { (events : List CommitEvent) → IsSerial events → audit_of (map item_of events) ≡ Serial (length events) }
{}
