//! Writers of records, each behind what a buffer has.
ghost use Rattle.std.specs.Prelude.{◌≡◌, ◌++◌, ◌≤◌, length, OnOk, IfOk};
ghost use Rattle.std.specs.Int.{w64, to_be_bytes};
ghost use Rattle.helios_model.specs.Limits.{most_items};
ghost use Rattle.log_records.specs.Ids.{id_bytes, version_bytes};
ghost use Rattle.log_records.specs.Keys.{key_bytes, value_bytes};
ghost use Rattle.log_records.specs.Items.{read_bytes, reads_bytes, write_bytes, writes_bytes};
ghost use Rattle.log_records.specs.Records.{prepare_bytes, record_bytes};

use crate::lengths::record_length;
use helios_model::{Bytes, Key, Prepare, ReadItem, Record, Time, TxnId, Val, Version, WriteItem};
use std::alloc::{AllocError, Global};

fn put_time(out: &mut Vec<u8>, time: Time) -> Result<(), AllocError>
    ensures { OnOk result (out.new.items ≡ out.old.items ++ to_be_bytes w64 time) }
{
    out.extend_from_slice(&time.half_micros().to_be_bytes())
}

fn put_id(out: &mut Vec<u8>, id: TxnId) -> Result<(), AllocError>
    ensures { OnOk result (out.new.items ≡ out.old.items ++ id_bytes id) }
{
    out.push(id.site.number())?;
    put_time(out, id.time)
}

fn put_version(out: &mut Vec<u8>, version: Version) -> Result<(), AllocError>
    ensures { OnOk result (out.new.items ≡ out.old.items ++ version_bytes version) }
{
    match version {
        Version::Initial => out.push(0)?,
        Version::Of(id) => {
            out.push(1)?;
            put_id(out, id)?;
        }
    }
    Ok(())
}

pub(crate) fn put_key(out: &mut Vec<u8>, key: &Key) -> Result<(), AllocError>
    ensures { OnOk result (out.new.items ≡ out.old.items ++ key_bytes key.now) }
{
    let bytes = key.items();
    out.push(bytes.len() as u8)?;
    out.extend_from_slice(bytes)
}

pub(crate) fn put_value(out: &mut Vec<u8>, value: &Val) -> Result<(), AllocError>
    ensures { OnOk result (out.new.items ≡ out.old.items ++ value_bytes value.now) }
{
    let bytes = value.items();
    out.extend_from_slice(&(bytes.len() as u16).to_be_bytes())?;
    out.extend_from_slice(bytes)
}

fn put_read(out: &mut Vec<u8>, read: &ReadItem) -> Result<(), AllocError>
    ensures { OnOk result (out.new.items ≡ out.old.items ++ read_bytes read.now) }
{
    put_key(out, &read.key)?;
    put_version(out, read.version)
}

pub(crate) fn put_reads(out: &mut Vec<u8>, reads: &[ReadItem]) -> Result<(), AllocError>
    requires { length reads.now ≤ most_items }
    ensures { OnOk result (out.new.items ≡ out.old.items ++ reads_bytes reads.now) }
{
    out.push(reads.len() as u8)?;
    for read in reads {
        put_read(out, read)?;
    }
    Ok(())
}

fn put_write(out: &mut Vec<u8>, write: &WriteItem) -> Result<(), AllocError>
    ensures { OnOk result (out.new.items ≡ out.old.items ++ write_bytes write.now) }
{
    put_key(out, &write.key)?;
    put_value(out, &write.value)?;
    put_version(out, write.over)
}

fn put_writes(out: &mut Vec<u8>, writes: &[WriteItem]) -> Result<(), AllocError>
    requires { length writes.now ≤ most_items }
    ensures { OnOk result (out.new.items ≡ out.old.items ++ writes_bytes writes.now) }
{
    out.push(writes.len() as u8)?;
    for write in writes {
        put_write(out, write)?;
    }
    Ok(())
}

fn put_prepare(out: &mut Vec<u8>, prepare: &Prepare) -> Result<(), AllocError>
    ensures { OnOk result (out.new.items ≡ out.old.items ++ prepare_bytes prepare.now) }
{
    put_id(out, prepare.id())?;
    put_reads(out, prepare.reads().items())?;
    put_writes(out, prepare.writes().items())
}

pub(crate) fn put_record(out: &mut Vec<u8>, r: &Record) -> Result<(), AllocError>
    ensures { OnOk result (out.new.items ≡ out.old.items ++ record_bytes r.now) }
{
    match r {
        Record::Prepare(prepare) => {
            out.push(1)?;
            put_prepare(out, prepare)?;
        }
        Record::Commit { id, time } => {
            out.push(2)?;
            put_id(out, *id)?;
            put_time(out, *time)?;
        }
        Record::Abort { id, time, cause } => {
            out.push(3)?;
            put_id(out, *id)?;
            put_time(out, *time)?;
            put_id(out, *cause)?;
        }
    }
    Ok(())
}

/// The one spelling of a record.
pub fn encode_record(alloc: Global, r: &Record) -> Result<Bytes, AllocError>
    ensures { IfOk result (λ bytes. bytes ≡ record_bytes r.now) }
{
    let mut out = Vec::with_capacity(alloc, record_length(r))?;
    put_record(&mut out, r)?;
    Ok(Bytes::new(out))
}
