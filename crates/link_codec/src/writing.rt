//! Writers of fields, each behind what a buffer has, and how many bytes they write.
ghost use Rattle.std.specs.Prelude.{◌≡◌, ◌++◌, ◌≤◌, length, OnOk};
ghost use Rattle.log_records.specs.Ids.{id_bytes, version_bytes};
ghost use Rattle.log_records.specs.Keys.{key_bytes, value_bytes};

use helios_model::{Key, TxnId, Val, Version};
use std::alloc::AllocError;

/// The bytes of an id.
pub(crate) const ID: usize = 9;

pub(crate) fn put_id(out: &mut Vec<u8>, id: TxnId) -> Result<(), AllocError>
    ensures { OnOk result (out.new.items ≡ out.old.items ++ id_bytes id) }
{
    out.push(id.site.number())?;
    out.extend_from_slice(&id.time.half_micros().to_be_bytes())
}

pub(crate) fn put_version(out: &mut Vec<u8>, version: Version) -> Result<(), AllocError>
    ensures { OnOk result (out.new.items ≡ out.old.items ++ version_bytes version) }
{
    match version {
        Version::Initial => out.push(0)?,
        Version::Of(id) => {
            out.push(1)?;
            put_id(out, id)?;
        }
    }
    Ok(())
}

pub(crate) fn put_key(out: &mut Vec<u8>, key: &Key) -> Result<(), AllocError>
    ensures { OnOk result (out.new.items ≡ out.old.items ++ key_bytes key.now) }
{
    let bytes = key.items();
    out.push(bytes.len() as u8)?;
    out.extend_from_slice(bytes)
}

pub(crate) fn put_value(out: &mut Vec<u8>, value: &Val) -> Result<(), AllocError>
    ensures { OnOk result (out.new.items ≡ out.old.items ++ value_bytes value.now) }
{
    let bytes = value.items();
    out.extend_from_slice(&(bytes.len() as u16).to_be_bytes())?;
    out.extend_from_slice(bytes)
}

pub(crate) fn version_length(version: Version) -> usize
    ensures value { result ≡ length (version_bytes version) }
    ensures most { result ≤ 10 }
{
    match version {
        Version::Initial => 1,
        Version::Of(_) => 1 + ID,
    }
}

pub(crate) fn key_length(key: &Key) -> usize
    ensures value { result ≡ length (key_bytes key.now) }
    ensures most { result ≤ 65 }
{
    1 + key.items().len()
}

pub(crate) fn value_length(value: &Val) -> usize
    ensures value { result ≡ length (value_bytes value.now) }
    ensures most { result ≤ 1026 }
{
    2 + value.items().len()
}
