//! The text of the records of a site's log.
ghost use Rattle.std.specs.Prelude.{◌≡◌, IfOk};
ghost use Rattle.hex.specs.Hex.{encode_lower};
ghost use Rattle.serde_json.specs.Data.{array, item, no_items, string};
ghost use Rattle.serde_json.specs.View.{view};
ghost use Rattle.history_audit.specs.Recorded.{abort_members, commit_members, log_members, prepare_members, record_data, records_text, whole, write_data};

use crate::printing::{ItemPrinter, ReadPrinter, array, id, key, version};
use helios_model::{Bytes, Prepare, Record, Records, SiteId, Time, TxnId, WriteItem};
use json_text::line_of;
use serde_json::{Value, json};
use std::alloc::{AllocError, Global};

fn three(alloc: Global, first: Value, second: Value, third: Value) -> Result<Value, AllocError>
    ensures { IfOk result (λ v. view v ≡ array (item (view first) (item (view second) (item (view third) no_items)))) }
{
    json!(in alloc; [first, second, third])
}

// Prints `[KEY,HEX,VERSION]`.
struct WritePrinter;

impl ItemPrinter for WritePrinter {
    type Item = WriteItem;

    ghost said = { write_data };

    ghost keeps = { λ _. Unit {0} };

    fn value(alloc: Global, item: &WriteItem) -> Result<Value, AllocError> {
        let key = key(alloc, &item.key)?;
        let bytes = Value::String(hex::encode(alloc, item.value.items())?);
        let over = version(alloc, item.over)?;
        three(alloc, key, bytes, over)
    }
}

#[tactic(auto, unfolding(crate::specs::Recorded::prepare_members))]
fn prepare_members(
    alloc: Global,
    id: Value,
    reads: Value,
    writes: Value,
) -> Result<Value, AllocError>
    ensures { IfOk result (λ v. view v ≡ prepare_members (view id) (view reads) (view writes)) }
{
    json!(in alloc; {
        "prepare": id,
        "reads": reads,
        "writes": writes
    })
}

fn prepare(alloc: Global, prepare: &Prepare) -> Result<Value, AllocError>
    ensures { IfOk result (λ v. view v ≡ record_data (Record.Prepare prepare.now)) }
{
    let id = id(alloc, prepare.id())?;
    let reads = array::<ReadPrinter>(alloc, prepare.reads().items())?;
    let writes = array::<WritePrinter>(alloc, prepare.writes().items())?;
    prepare_members(alloc, id, reads, writes)
}

#[tactic(auto, unfolding(crate::specs::Recorded::commit_members))]
fn commit_members(alloc: Global, id: Value, time: Time) -> Result<Value, AllocError>
    ensures { IfOk result (λ v. view v ≡ commit_members (view id) (whole time)) }
{
    json!(in alloc; {
        "commit": id,
        "time": time.half_micros()
    })
}

#[tactic(auto, unfolding(crate::specs::Recorded::abort_members))]
fn abort_members(alloc: Global, id: Value, cause: Value, time: Time) -> Result<Value, AllocError>
    ensures { IfOk result (λ v. view v ≡ abort_members (view id) (view cause) (whole time)) }
{
    json!(in alloc; {
        "abort": id,
        "cause": cause,
        "time": time.half_micros()
    })
}

// Prints a record.
struct RecordPrinter;

impl ItemPrinter for RecordPrinter {
    type Item = Record;

    ghost said = { record_data };

    ghost keeps = { λ _. Unit {0} };

    fn value(alloc: Global, item: &Record) -> Result<Value, AllocError> {
        match item {
            Record::Prepare(p) => prepare(alloc, p),
            Record::Commit { id: name, time } => commit_members(alloc, id(alloc, *name)?, *time),
            Record::Abort {
                id: name,
                time,
                cause,
            } => abort_members(alloc, id(alloc, *name)?, id(alloc, *cause)?, *time),
        }
    }
}

#[tactic(auto, unfolding(crate::specs::Recorded::log_members))]
fn members(alloc: Global, records: Value, site: u8) -> Result<Value, AllocError>
    ensures { IfOk result (λ v. view v ≡ log_members (view records) (whole site)) }
{
    json!(in alloc; {
        "records": records,
        "site": u64::from(site)
    })
}

/// The text of the records of a site's log: JSON without blanks, and a line feed. Only want of memory is an error.
#[tactic(auto, using(crate::proofs::Printed::log_no_float))]
pub fn print_records(alloc: Global, site: SiteId, records: &Records) -> Result<Bytes, AllocError>
    ensures { IfOk result (λ text. text ≡ records_text site records.now) }
{
    let records = array::<RecordPrinter>(alloc, records.items())?;
    let value = members(alloc, records, site.number())?;
    line_of(alloc, &value)
}
