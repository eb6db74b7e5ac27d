//! The history that a text says, or the first rule that the text breaks.
ghost use Rattle.std.specs.Prelude.{◌≡◌, ◌||◌, not, [], IfOk, OnOk};
ghost use Rattle.helios_model.specs.Ids.{same_id};
ghost use Rattle.helios_model.specs.Texts.{all_differ, contains_text};
ghost use Rattle.json_text.specs.Reading.{Gives, required};
ghost use Rattle.json_text.specs.Spelled.{key_at};
ghost use Rattle.json_text.specs.Transactions.{keyed_of, read_at};
ghost use Rattle.json_text.specs.Unread.{Reads as IsRead};
ghost use Rattle.serde_json.specs.View.{items_view, view};
ghost use Rattle.helios_model.specs.declared.ids.TxnId.{TxnId};
ghost use Rattle.history_audit.specs.Items.{fresh_item, is_among, item_at};
ghost use Rattle.history_audit.specs.declared.refusal.HistoryRefusal.TheVariants.{BadTransaction};
ghost use Rattle.history_audit.specs.Reading.{history_at, history_of_text, items_behind};

use crate::history::{History, Item};
use crate::refusal::HistoryRefusal;
use helios_model::{Key, Keys, MOST_ITEMS, Reads, TxnId};
use json_text::{
    KeyReader, ReadReader, Unread, array_member, id, read_keyed, read_parts, value_of,
};
use serde_json::Value;
use std::alloc::{AllocError, Global};
use std::collections::BTreeSet;

fn is_among(keys: &[Key], key: &Key) -> bool
    ensures { result ≡ contains_text keys.now key.now }
{
    keys.iter().any(|other| *other == *key)
}

#[tactic(auto, using(crate::proofs::Slices::first_and_rest))]
fn are_different(keys: &[Key]) -> bool
    ensures { result ≡ all_differ (λ key. key) keys.now }
{
    match keys {
        [] => true,
        [first, rest @ ..] => !is_among(rest, first) && are_different(rest),
    }
}

// At most 16 keys, no two of them the same.
#[tactic(auto, unfolding(json_text::specs::Transactions::keyed_of))]
fn read_writes(alloc: Global, items: &[Value]) -> Result<Keys, Unread>
    ensures { IsRead result (keyed_of (λ key. key) key_at (items_view items.now)) }
{
    let keys = read_parts(alloc, items, MOST_ITEMS, &KeyReader)?;
    if are_different(keys.as_slice()) {
        Ok(Keys::new(keys))
    } else {
        Err(Unread::OtherForm)
    }
}

#[tactic(auto, unfolding(crate::specs::Items::item_at))]
fn read_item(alloc: Global, value: &Value) -> Result<Item, Unread>
    ensures { IsRead result (item_at (view value.now)) }
{
    let id = id(value.get("id").ok_or(Unread::OtherForm)?).ok_or(Unread::OtherForm)?;
    let reads = array_member(value, "reads").ok_or(Unread::OtherForm)?;
    let writes = array_member(value, "writes").ok_or(Unread::OtherForm)?;
    let reads = Reads::new(read_keyed(alloc, reads.as_slice(), &ReadReader)?);
    let writes = read_writes(alloc, writes.as_slice())?;
    Ok(Item { id, reads, writes })
}

// Adds an id to those that were given, and says whether it is new.
fn add(given: &mut BTreeSet<TxnId>, id: TxnId) -> Result<bool, AllocError>
    ensures added { IfOk result (λ added. added ≡ not (is_among given.old.keys id)) }
    ensures more { OnOk result ((other : TxnId) → is_among given.new.keys other ≡ (same_id id other || is_among given.old.keys other)) }
{
    Ok(given.insert(id)?)
}

// The transaction that a value says, whose id was not given before.
#[tactic(auto, unfolding(crate::specs::Items::fresh_item))]
fn read_next(
    alloc: Global,
    given: &mut BTreeSet<TxnId>,
    place: usize,
    value: &Value,
) -> Result<Item, HistoryRefusal>
    ensures said { Gives HistoryRefusal.NoMemory result (required (BadTransaction place) (fresh_item (is_among given.old.keys) (view value.now))) }
    ensures given { IfOk result (λ item. (id : TxnId) → is_among given.new.keys id ≡ (same_id item.id id || is_among given.old.keys id)) }
{
    let bad = HistoryRefusal::BadTransaction(place as u64);
    let item = read_item(alloc, value).map_err(|unread| unread.because(bad))?;
    if add(given, item.id)? {
        Ok(item)
    } else {
        Err(bad)
    }
}

#[tactic(auto, using(crate::proofs::Behind::next_read, crate::proofs::Behind::next_refused, crate::proofs::Behind::given_more, crate::proofs::Behind::behind_end))]
fn read_items(alloc: Global, items: &[Value]) -> Result<History, HistoryRefusal>
    ensures { Gives HistoryRefusal.NoMemory result (items_behind [] (items_view items.now)) }
{
    let mut given = BTreeSet::new(alloc);
    let mut found = Vec::new(alloc);
    for (place, value) in items.iter().enumerate() {
        let item = read_next(alloc, &mut given, place, value)?;
        found.push(item)?;
    }
    Ok(History::new(found))
}

#[tactic(auto, unfolding(crate::specs::Reading::history_at))]
fn history(alloc: Global, value: &Value) -> Result<History, HistoryRefusal>
    ensures { Gives HistoryRefusal.NoMemory result (history_at (view value.now)) }
{
    let items = value.as_array().ok_or(HistoryRefusal::BadShape)?;
    read_items(alloc, items.as_slice())
}

/// The history that a text says, or the first rule that it breaks.
#[tactic(auto, unfolding(crate::specs::Reading::history_of_text))]
pub fn read_history(alloc: Global, input: &[u8]) -> Result<History, HistoryRefusal>
    ensures { Gives HistoryRefusal.NoMemory result (history_of_text input.now) }
{
    let value = value_of(alloc, input)?.ok_or(HistoryRefusal::NotJson)?;
    history(alloc, &value)
}
