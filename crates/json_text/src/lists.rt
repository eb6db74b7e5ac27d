//! Readers of the items of an array.
ghost use Rattle.std.specs.Prelude.{◌≡◌, ℕ, List, Option, Result};
ghost use Rattle.serde_json.specs.Data.{Data};
ghost use Rattle.serde_json.specs.View.{view, items_view};
ghost use Rattle.json_text.specs.Lists.{list_of, parts_of};
ghost use Rattle.json_text.specs.Reading.{Gives, GivesAs, required};
ghost use Rattle.json_text.specs.Unread.{Reads, ReadsAs};
ghost use Rattle.json_text.specs.declared.refusals.Unread.TheVariants.{OtherForm};

use crate::refusals::{Refusal, Unread};
use serde_json::Value;
use std::alloc::Global;

/// How the items of an array are read, where each refusal may name the place of its item.
pub trait ItemReader {
    type Item: Drop;

    type Error: Refusal;

    /// What the item at a place says, or its refusal.
    ghost said: { Self → ℕ → Data → Result Self.Item Self.Error };

    fn read(&self, alloc: Global, place: usize, value: &Value) -> Result<Self::Item, Self::Error>
        ensures { Gives Self.Error.memory result (said self.now place (view value.now)) };
}

/// How a part of a text is read, whatever its place.
pub trait PartReader {
    type Part: Drop;

    /// What a value says as such a part, if it says one.
    ghost said: { Self → Data → Option Self.Part };

    fn read(&self, alloc: Global, value: &Value) -> Result<Self::Part, Unread>
        ensures { Reads result (said self.now (view value.now)) };
}

/// The items in their order, or the first refusal. How many there are is tested before the first is read.
#[tactic(auto, using(crate::proofs::ListReading::item_read, crate::proofs::ListReading::item_refused, crate::proofs::ListReading::items_end, crate::proofs::ListReading::few_items, crate::proofs::ListReading::many_items))]
pub fn read_list<R: ItemReader>(
    alloc: Global,
    items: &[Value],
    most: usize,
    too_many: R::Error,
    reader: &R,
) -> Result<Vec<R::Item>, R::Error>
    ensures { GivesAs (λ v. v.items) R.Error.memory result (list_of most too_many (R.said reader.now) (items_view items.now)) }
{
    if items.len() > most {
        return Err(too_many);
    }
    let mut found = Vec::new(alloc);
    for (place, value) in items.iter().enumerate() {
        let item = reader.read(alloc, place, value)?;
        if found.push(item).is_err() {
            return Err(R::Error::no_memory());
        }
    }
    Ok(found)
}

// The reader of parts as one of items, each of which is refused by its form alone.
#[derive(Drop)]
struct Parts<'a, P> {
    reader: &'a P,
}

impl<P: PartReader> ItemReader for Parts<'_, P> {
    type Item = P::Part;

    type Error = Unread;

    ghost said = { λ parts _ d. required OtherForm (P.said parts.reader.now d) };

    fn read(&self, alloc: Global, _place: usize, value: &Value) -> Result<P::Part, Unread> {
        self.reader.read(alloc, value)
    }
}

/// The parts in their order. How many there are is tested before the first is read.
#[tactic(auto, unfolding(crate::specs::Lists::list_of, crate::specs::Lists::parts_of), using(crate::proofs::ListReading::parts_read))]
pub fn read_parts<P: PartReader>(
    alloc: Global,
    items: &[Value],
    most: usize,
    reader: &P,
) -> Result<Vec<P::Part>, Unread>
    ensures { ReadsAs (λ v. v.items) result (parts_of most (P.said reader.now) (items_view items.now)) }
{
    read_list(alloc, items, most, Unread::OtherForm, &Parts { reader })
}
