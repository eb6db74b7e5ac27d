//! The text of a history.
ghost use Rattle.std.specs.Prelude.{◌≡◌, All, IfOk, Ok, map};
ghost use Rattle.serde_json.specs.Data.{string};
ghost use Rattle.serde_json.specs.View.{view};
ghost use Rattle.helios_model.specs.Serial.{IsSerial};
ghost use Rattle.helios_model.specs.Texts.{IsKey};
ghost use Rattle.history_audit.specs.Printing.{IsDated, history_data, history_text, item_data, item_members, item_of};
ghost use Rattle.history_audit.specs.Kept.{IsKept};
ghost use Rattle.history_audit.specs.Reading.{history_of_text};

use crate::printing::{ItemPrinter, ReadPrinter, array, id, key};
use helios_model::{
    Bytes, CommitEvent, Commits, WriteItem, ids_are_read_again, versions_are_read_again,
};
use json_text::line_of;
use serde_json::{Value, json};
use std::alloc::{AllocError, Global};

// Prints the key of a write alone.
struct WrittenKeyPrinter;

impl ItemPrinter for WrittenKeyPrinter {
    type Item = WriteItem;

    ghost said = { λ w. string w.key };

    ghost keeps = { λ w. IsKey w.key };

    fn value(alloc: Global, item: &WriteItem) -> Result<Value, AllocError> {
        key(alloc, &item.key)
    }
}

#[tactic(auto, unfolding(crate::specs::Printing::item_members))]
fn members(alloc: Global, id: Value, reads: Value, writes: Value) -> Result<Value, AllocError>
    ensures { IfOk result (λ v. view v ≡ item_members (view id) (view reads) (view writes)) }
{
    json!(in alloc; {
        "id": id,
        "reads": reads,
        "writes": writes
    })
}

// Prints a committed transaction as a history names it.
struct CommitPrinter;

impl ItemPrinter for CommitPrinter {
    type Item = CommitEvent;

    ghost said = { λ e. item_data (item_of e) };

    ghost keeps = { IsKept };

    #[tactic(auto, using(crate::proofs::Printed::keys_printed))]
    fn value(alloc: Global, item: &CommitEvent) -> Result<Value, AllocError> {
        let id = id(alloc, item.prepare.id())?;
        let reads = array::<ReadPrinter>(alloc, item.prepare.reads().items())?;
        let writes = array::<WrittenKeyPrinter>(alloc, item.prepare.writes().items())?;
        members(alloc, id, reads, writes)
    }
}

/// The text of a history: of each committed transaction its id, the versions that it read and the keys that it wrote, as
/// JSON without blanks, and a line feed. That of a serial history is read again as it was. Only want of memory is an error.
#[tactic(auto, using(crate::proofs::Printed::no_float, crate::proofs::Printed::shallow, crate::proofs::ReadAgain::history_read_again))]
pub fn print_history(alloc: Global, commits: &Commits) -> Result<Bytes, AllocError>
    ensures text { IfOk result (λ text. text ≡ history_text commits.now) }
    ensures reads_back { IfOk result (λ text. IsSerial commits.now → All IsDated commits.now → history_of_text text ≡ Ok (map item_of commits.now)) }
{
    ids_are_read_again();
    versions_are_read_again();
    let value = array::<CommitPrinter>(alloc, commits.items())?;
    line_of(alloc, &value)
}
