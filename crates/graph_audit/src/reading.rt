//! The dumps that a text says, or the first rule that the text breaks.
ghost use Rattle.std.specs.Prelude.{◌≡◌};
ghost use Rattle.json_text.specs.Reading.{Gives, GivesAs, required};
ghost use Rattle.serde_json.specs.View.{items_view, view};
ghost use Rattle.graph_audit.specs.Reading.{dump_read, dumps_at, dumps_of_text, logs_of};
ghost use Rattle.graph_audit.specs.declared.refusal.DumpsRefusal.TheVariants.{NoMemory};

use crate::dumps::Dumps;
use crate::gathering::committed;
use crate::records::dump;
use crate::refusal::DumpsRefusal;
use helios_model::Records;
use json_text::{ItemReader, read_list, value_of};
use serde_json::Value;
use std::alloc::Global;

/// The most dumps that a text has.
const MOST_DUMPS: usize = 32;

// Reads the records of a site's log.
#[derive(Drop)]
struct DumpReader;

impl ItemReader for DumpReader {
    type Item = Records;

    type Error = DumpsRefusal;

    ghost said = { λ _ place d. dump_read place d };

    fn read(&self, alloc: Global, place: usize, value: &Value) -> Result<Records, DumpsRefusal> {
        let bad = DumpsRefusal::BadDump(place as u64);
        dump(alloc, value).map_err(|unread| unread.because(bad))
    }
}

#[tactic(auto, unfolding(crate::specs::Reading::logs_of), using(crate::proofs::Some::no_items, crate::proofs::Some::some_items))]
fn logs(alloc: Global, items: &[Value]) -> Result<Vec<Records>, DumpsRefusal>
    ensures { GivesAs (λ v. v.items) NoMemory result (logs_of (items_view items.now)) }
{
    if items.is_empty() {
        return Err(DumpsRefusal::BadShape);
    }
    read_list(
        alloc,
        items,
        MOST_DUMPS,
        DumpsRefusal::BadShape,
        &DumpReader,
    )
}

#[tactic(auto, unfolding(crate::specs::Reading::dumps_at))]
fn dumps(alloc: Global, value: &Value) -> Result<Dumps, DumpsRefusal>
    ensures { GivesAs (λ d. d.committed) NoMemory result (dumps_at (view value.now)) }
{
    let items = value.as_array().ok_or(DumpsRefusal::BadShape)?;
    let logs = logs(alloc, items.as_slice())?;
    committed(alloc, logs)
}

/// The committed transactions that the dumps of 1 to 32 sites name, or the first rule that the text breaks.
#[tactic(auto, unfolding(crate::specs::Reading::dumps_of_text))]
pub fn read_dumps(alloc: Global, input: &[u8]) -> Result<Dumps, DumpsRefusal>
    ensures { GivesAs (λ d. d.committed) NoMemory result (dumps_of_text input.now) }
{
    let value = value_of(alloc, input)?.ok_or(DumpsRefusal::NotJson)?;
    dumps(alloc, &value)
}
