//! The JSON values of ids, versions, keys and reads, and arrays of such values.
ghost use Rattle.std.specs.Prelude.{◌≡◌, ℕ, All, IfOk};
ghost use Rattle.serde_json.specs.Data.{Data, array, item, no_items, string};
ghost use Rattle.serde_json.specs.View.{view};
ghost use Rattle.helios_model.specs.Ids.{id_text, version_text};
ghost use Rattle.helios_model.specs.Texts.{IsKey};
ghost use Rattle.history_audit.specs.Printing.{array_data, id_data, read_data};

use helios_model::{Key, ReadItem, TxnId, Version};
use serde_json::{Value, json};
use std::alloc::{AllocError, Global};
use std::str;

/// How an item of a list is printed.
pub(crate) trait ItemPrinter {
    type Item;

    /// The JSON value of an item.
    ghost said: { Self.Item → Data };

    /// What every item keeps by its type.
    ghost keeps: { Self.Item → Type 0 };

    fn value(alloc: Global, item: &Self::Item) -> Result<Value, AllocError>
        ensures said { IfOk result (λ v. view v ≡ said item.now) }
        ensures kept { IfOk result (λ _. keeps item.now) };
}

/// The JSON array of these items.
pub(crate) fn array<P: ItemPrinter>(alloc: Global, items: &[P::Item]) -> Result<Value, AllocError>
    ensures said { IfOk result (λ v. view v ≡ array_data P.said items.now) }
    ensures kept { IfOk result (λ _. All P.keeps items.now) }
{
    let mut values = Vec::with_capacity(alloc, items.len())?;
    for item in items {
        values.push(P::value(alloc, item)?)?;
    }
    Ok(Value::Array(values))
}

/// The JSON text of an id.
pub(crate) fn id(alloc: Global, id: TxnId) -> Result<Value, AllocError>
    ensures { IfOk result (λ v. view v ≡ id_data id) }
{
    Ok(Value::String(format!(in alloc; "{id}")?))
}

/// The JSON text of a version.
pub(crate) fn version(alloc: Global, version: Version) -> Result<Value, AllocError>
    ensures { IfOk result (λ v. view v ≡ string (version_text version)) }
{
    Ok(Value::String(format!(in alloc; "{version}")?))
}

fn text_of(key: &Key) -> &str
    ensures text { result.now ≡ key.now }
    ensures key { IsKey key.now }
{
    match str::from_utf8(key.items()) {
        Ok(text) => text,
        Err(_) => unreachable!(),
    }
}

/// The JSON text of a key.
pub(crate) fn key(alloc: Global, key: &Key) -> Result<Value, AllocError>
    ensures said { IfOk result (λ v. view v ≡ string key.now) }
    ensures kept { IfOk result (λ _. IsKey key.now) }
{
    Ok(Value::String(String::from_str(alloc, text_of(key))?))
}

fn two(alloc: Global, first: Value, second: Value) -> Result<Value, AllocError>
    ensures { IfOk result (λ v. view v ≡ array (item (view first) (item (view second) no_items))) }
{
    json!(in alloc; [first, second])
}

/// Prints `[KEY,VERSION]`.
pub(crate) struct ReadPrinter;

impl ItemPrinter for ReadPrinter {
    type Item = ReadItem;

    ghost said = { read_data };

    ghost keeps = { λ r. IsKey r.key };

    fn value(alloc: Global, item: &ReadItem) -> Result<Value, AllocError> {
        let key = key(alloc, &item.key)?;
        let version = version(alloc, item.version)?;
        two(alloc, key, version)
    }
}
