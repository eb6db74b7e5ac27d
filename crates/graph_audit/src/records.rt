//! The records that a value says.
ghost use Rattle.std.specs.Prelude.{◌≡◌, option_map};
ghost use Rattle.std.specs.List.{list_all};
ghost use Rattle.serde_json.specs.View.{items_view, view};
ghost use Rattle.json_text.specs.Lists.{each_of};
ghost use Rattle.json_text.specs.Unread.{Reads as IsRead, ReadsAs};
ghost use Rattle.graph_audit.specs.Records.{abort_at, commit_at, dump_at, hex_value_at, id_member, is_lower_digit, item_triple, named_record, prepare_at, record_at, site_at, spelled_bytes, time_at, write_at};

use helios_model::{
    Bytes, LAST_TIME, MOST_SITES, Prepare, Reads, Record, Records, Time, TxnId, Val, WriteItem,
    Writes, value_from,
};
use hex::FromHexError;
use json_text::{
    PartReader, ReadReader, Unread, array_member, has_member, id, key, number_member, read_keyed,
    read_parts, version,
};
use serde_json::Value;
use std::alloc::Global;

// ---- a write

fn are_lower_digits(text: &[u8]) -> bool
    ensures { result ≡ list_all is_lower_digit text.now }
{
    text.iter().all(|c| (*c >= b'0' && *c <= b'9') || (*c >= b'a' && *c <= b'f'))
}

#[tactic(auto, unfolding(crate::specs::Records::spelled_bytes))]
fn spelled_bytes(alloc: Global, text: &str) -> Result<Bytes, Unread>
    ensures { IsRead result (spelled_bytes text.now) }
{
    if !are_lower_digits(text.as_bytes()) {
        return Err(Unread::OtherForm);
    }
    match hex::decode(alloc, text) {
        Ok(bytes) => Ok(Bytes::new(bytes)),
        Err(FromHexError::OutOfMemory) => Err(Unread::NoMemory),
        Err(_) => Err(Unread::OtherForm),
    }
}

#[tactic(auto, unfolding(crate::specs::Records::hex_value_at))]
fn hex_value(alloc: Global, value: &Value) -> Result<Val, Unread>
    ensures { IsRead result (hex_value_at (view value.now)) }
{
    let text = value.as_str().ok_or(Unread::OtherForm)?;
    let bytes = spelled_bytes(alloc, text)?;
    value_from(bytes).ok_or(Unread::OtherForm)
}

#[tactic(auto, using(crate::proofs::Triples::of_three, crate::proofs::Triples::of_others))]
fn three(items: &[Value]) -> Option<(&Value, &Value, &Value)>
    ensures { option_map (λ p. (view p.0.now, view p.1.now, view p.2.now)) result ≡ item_triple (items_view items.now) }
{
    if items.len() == 3 {
        Some((&items[0], &items[1], &items[2]))
    } else {
        None
    }
}

#[tactic(auto, unfolding(crate::specs::Records::write_at))]
fn write(alloc: Global, value: &Value) -> Result<WriteItem, Unread>
    ensures { IsRead result (write_at (view value.now)) }
{
    let items = value.as_array().ok_or(Unread::OtherForm)?;
    let (first, second, third) = three(items.as_slice()).ok_or(Unread::OtherForm)?;
    let key = key(alloc, first)?;
    let value = hex_value(alloc, second)?;
    let over = version(third).ok_or(Unread::OtherForm)?;
    Ok(WriteItem { key, value, over })
}

// Reads `[KEY,HEX,VERSION]`.
#[derive(Drop)]
struct WriteReader;

impl PartReader for WriteReader {
    type Part = WriteItem;

    ghost said = { λ _ d. write_at d };

    fn read(&self, alloc: Global, value: &Value) -> Result<WriteItem, Unread> {
        write(alloc, value)
    }
}

// ---- a record

fn id_member(value: &Value, name: &str) -> Option<TxnId>
    ensures { result ≡ id_member name.now (view value.now) }
{
    id(value.get(name)?)
}

#[tactic(auto, unfolding(crate::specs::Records::prepare_at), using(crate::proofs::Keyed::are_transaction))]
fn prepare(alloc: Global, value: &Value) -> Result<Prepare, Unread>
    ensures { IsRead result (prepare_at (view value.now)) }
{
    let id = id_member(value, "prepare").ok_or(Unread::OtherForm)?;
    let reads = array_member(value, "reads").ok_or(Unread::OtherForm)?;
    let writes = array_member(value, "writes").ok_or(Unread::OtherForm)?;
    let reads = Reads::new(read_keyed(alloc, reads.as_slice(), &ReadReader)?);
    let writes = Writes::new(read_keyed(alloc, writes.as_slice(), &WriteReader)?);
    Ok(Prepare::of(id, reads, writes))
}

fn time(value: &Value) -> Option<Time>
    ensures { result ≡ time_at (view value.now) }
{
    let half_micros = number_member(value, "time")?;
    if half_micros >= 1 && half_micros <= LAST_TIME {
        Some(Time::of(half_micros))
    } else {
        None
    }
}

#[tactic(auto, unfolding(crate::specs::Records::commit_at))]
fn commit(value: &Value) -> Option<Record>
    ensures { result ≡ commit_at (view value.now) }
{
    let id = id_member(value, "commit")?;
    let time = time(value)?;
    Some(Record::Commit { id, time })
}

#[tactic(auto, unfolding(crate::specs::Records::abort_at))]
fn abort(value: &Value) -> Option<Record>
    ensures { result ≡ abort_at (view value.now) }
{
    let id = id_member(value, "abort")?;
    let cause = id_member(value, "cause")?;
    let time = time(value)?;
    Some(Record::Abort { id, time, cause })
}

fn named_record(
    alloc: Global,
    is_prepare: bool,
    is_commit: bool,
    is_abort: bool,
    value: &Value,
) -> Result<Record, Unread>
    ensures { IsRead result (named_record is_prepare is_commit is_abort (view value.now)) }
{
    match (is_prepare, is_commit, is_abort) {
        (true, false, false) => Ok(Record::Prepare(prepare(alloc, value)?)),
        (false, true, false) => commit(value).ok_or(Unread::OtherForm),
        (false, false, true) => abort(value).ok_or(Unread::OtherForm),
        _ => Err(Unread::OtherForm),
    }
}

// Reads a record, which has exactly one of three names.
#[derive(Drop)]
struct RecordReader;

impl PartReader for RecordReader {
    type Part = Record;

    ghost said = { λ _ d. record_at d };

    #[tactic(auto, unfolding(crate::specs::Records::record_at))]
    fn read(&self, alloc: Global, value: &Value) -> Result<Record, Unread> {
        let is_prepare = has_member(value, "prepare");
        let is_commit = has_member(value, "commit");
        let is_abort = has_member(value, "abort");
        named_record(alloc, is_prepare, is_commit, is_abort, value)
    }
}

// ---- a dump

#[tactic(auto, using(crate::proofs::Each::parts_of_all))]
fn read_all(alloc: Global, items: &[Value]) -> Result<Vec<Record>, Unread>
    ensures { ReadsAs (λ v. v.items) result (each_of record_at (items_view items.now)) }
{
    read_parts(alloc, items, items.len(), &RecordReader)
}

fn site(value: &Value) -> Option<u64>
    ensures { result ≡ site_at (view value.now) }
{
    let number = number_member(value, "site")?;
    if number < u64::from(MOST_SITES) {
        Some(number)
    } else {
        None
    }
}

/// The records of a site's log that the value says.
#[tactic(auto, unfolding(crate::specs::Records::dump_at))]
pub(crate) fn dump(alloc: Global, value: &Value) -> Result<Records, Unread>
    ensures { IsRead result (dump_at (view value.now)) }
{
    let _site = site(value).ok_or(Unread::OtherForm)?;
    let records = array_member(value, "records").ok_or(Unread::OtherForm)?;
    Ok(Records::new(read_all(alloc, records.as_slice())?))
}
