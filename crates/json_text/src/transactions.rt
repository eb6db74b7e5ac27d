//! Readers of what a transaction reads and writes: arrays of pairs that begin with a key.
ghost use Rattle.std.specs.Prelude.{◌≡◌};
ghost use Rattle.serde_json.specs.View.{items_view, view};
ghost use Rattle.json_text.specs.Transactions.{keyed_of, put_at, read_at};
ghost use Rattle.json_text.specs.Unread.{Reads, ReadsAs};

use crate::lists::{PartReader, read_parts};
use crate::members::pair;
use crate::refusals::Unread;
use crate::spelled::{key, stored_value, version};
use helios_model::{Keyed, MOST_ITEMS, PutItem, ReadItem, keys_differ};
use serde_json::Value;
use std::alloc::Global;

/// The items of an array in their order, where they are at most 16 and no two have the same key.
#[tactic(auto, unfolding(crate::specs::Transactions::keyed_of))]
pub fn read_keyed<P: PartReader>(
    alloc: Global,
    items: &[Value],
    reader: &P,
) -> Result<Vec<P::Part>, Unread>
where
    P::Part: Keyed,
    ensures { ReadsAs (λ v. v.items) result (keyed_of P.Part.key_of (P.said reader.now) (items_view items.now)) }
{
    let found = read_parts(alloc, items, MOST_ITEMS, reader)?;
    if keys_differ(found.as_slice()) {
        Ok(found)
    } else {
        Err(Unread::OtherForm)
    }
}

#[tactic(auto, unfolding(crate::specs::Transactions::read_at))]
fn read(alloc: Global, value: &Value) -> Result<ReadItem, Unread>
    ensures { Reads result (read_at (view value.now)) }
{
    let (first, second) = pair(value).ok_or(Unread::OtherForm)?;
    let key = key(alloc, first)?;
    let version = version(second).ok_or(Unread::OtherForm)?;
    Ok(ReadItem { key, version })
}

/// Reads `[KEY,VERSION]`.
#[derive(Drop)]
pub struct ReadReader;

impl PartReader for ReadReader {
    type Part = ReadItem;

    ghost said = { λ _ d. read_at d };

    fn read(&self, alloc: Global, value: &Value) -> Result<ReadItem, Unread> {
        read(alloc, value)
    }
}

#[tactic(auto, unfolding(crate::specs::Transactions::put_at))]
fn put(alloc: Global, value: &Value) -> Result<PutItem, Unread>
    ensures { Reads result (put_at (view value.now)) }
{
    let (first, second) = pair(value).ok_or(Unread::OtherForm)?;
    let key = key(alloc, first)?;
    let value = stored_value(alloc, second)?;
    Ok(PutItem { key, value })
}

/// Reads `[KEY,VALUE]`.
#[derive(Drop)]
pub struct PutReader;

impl PartReader for PutReader {
    type Part = PutItem;

    ghost said = { λ _ d. put_at d };

    fn read(&self, alloc: Global, value: &Value) -> Result<PutItem, Unread> {
        put(alloc, value)
    }
}
