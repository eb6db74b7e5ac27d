ghost use Rattle.std.specs.Prelude.{◌≡◌, ◌*◌, ◌≤◌, length, IfOk};
ghost use Rattle.helios_model.specs.Limits.{most_sites};
ghost use Rattle.helios_model.specs.Naming.{AreNames};
ghost use Rattle.helios_model.specs.Squares.{IsSymmetric, IsZeroOnDiagonal};
ghost use Rattle.json_text.specs.Arrays.{whole_number};
ghost use Rattle.json_text.specs.Reading.{Gives};
ghost use Rattle.json_text.specs.Unread.{Reads};
ghost use Rattle.serde_json.specs.View.{items_view, view};
ghost use Rattle.commit_offsets.specs.Forms.{latencies_of, names_in, names_of, offsets_of, pair_of, trips_of, version_of};
ghost use Rattle.commit_offsets.specs.Reading.{HaveForms, field, fields_at};
ghost use Rattle.commit_offsets.specs.declared.refusal.FieldName.TheVariants as fields;

use crate::data::{GivenOffsets, PlanFields};
use crate::refusal::{FieldName, PlanRefusal};
use helios_model::{MOST_SITES, Names, Times, first_away, first_bad_name, first_uneven};
use json_text::{Unread, array_member, read_names, read_row, read_square};
use serde_json::Value;
use std::alloc::Global;

#[tactic(auto, unfolding(crate::specs::Forms::version_of))]
fn version(value: &Value) -> Result<u64, PlanRefusal>
    ensures { Gives PlanRefusal.NoMemory result (field fields.Version version_of (view value.now)) }
{
    match value.get("version").and_then(Value::as_u64) {
        Some(1) => Ok(1),
        _ => Err(PlanRefusal::BadField(FieldName::Version)),
    }
}

// The names of the sites of a cluster. How many there are is tested before the first is copied.
#[tactic(auto, using(crate::proofs::Counting::counted, crate::proofs::Counting::too_few, crate::proofs::Counting::too_many))]
fn names_in(alloc: Global, texts: &[Value]) -> Result<Names, Unread>
    ensures exact { Reads result (names_in (items_view texts.now)) }
    ensures some { IfOk result (λ names. 1 ≤ length names) }
    ensures few { IfOk result (λ names. length names ≤ most_sites) }
    ensures form { IfOk result AreNames }
{
    if texts.is_empty() {
        return Err(Unread::OtherForm);
    }
    if texts.len() > MOST_SITES as usize {
        return Err(Unread::OtherForm);
    }
    let names = read_names(alloc, texts)?;
    match first_bad_name(names.as_slice()) {
        None => Ok(Names::new(names)),
        Some(_) => Err(Unread::OtherForm),
    }
}

fn names(alloc: Global, value: &Value) -> Result<Names, PlanRefusal>
    ensures exact { Gives PlanRefusal.NoMemory result (field fields.Names names_of (view value.now)) }
    ensures some { IfOk result (λ names. 1 ≤ length names) }
    ensures few { IfOk result (λ names. length names ≤ most_sites) }
    ensures form { IfOk result AreNames }
{
    let texts = array_member(value, "names").ok_or(PlanRefusal::BadField(FieldName::Names))?;
    names_in(alloc, texts.as_slice()).map_err(|unread| unread.because(PlanRefusal::BadField(
        FieldName::Names,
    )))
}

// The round trips of a square that is the same read by columns, with 0 on the diagonal.
#[tactic(auto, unfolding(crate::specs::Forms::trips_of))]
fn even_trips(alloc: Global, count: usize, field: &Value) -> Result<Times, Unread>
    requires some { 1 ≤ count }
    requires few { count ≤ most_sites }
    ensures exact { Reads result (trips_of count (view field.now)) }
    ensures size { IfOk result (λ trips. length trips ≡ count * count) }
    ensures symmetric { IfOk result (IsSymmetric count) }
    ensures diagonal { IfOk result (IsZeroOnDiagonal count) }
{
    let trips = read_square(alloc, count, field)?;
    if first_uneven(count, trips.as_slice()).is_some() {
        return Err(Unread::OtherForm);
    }
    if first_away(count, trips.as_slice()).is_some() {
        return Err(Unread::OtherForm);
    }
    Ok(Times::new(trips))
}

fn trips(alloc: Global, count: usize, value: &Value) -> Result<Times, PlanRefusal>
    requires some { 1 ≤ count }
    requires few { count ≤ most_sites }
    ensures exact { Gives PlanRefusal.NoMemory result (field fields.Rtt (trips_of count) (view value.now)) }
    ensures size { IfOk result (λ trips. length trips ≡ count * count) }
    ensures symmetric { IfOk result (IsSymmetric count) }
    ensures diagonal { IfOk result (IsZeroOnDiagonal count) }
{
    let field = value
        .get("rtt")
        .ok_or(PlanRefusal::BadField(FieldName::Rtt))?;
    even_trips(alloc, count, field).map_err(|unread| unread.because(PlanRefusal::BadField(
        FieldName::Rtt,
    )))
}

fn latencies(alloc: Global, count: usize, value: &Value) -> Result<Times, PlanRefusal>
    ensures exact { Gives PlanRefusal.NoMemory result (field fields.Latency (latencies_of count) (view value.now)) }
    ensures size { IfOk result (λ latencies. length latencies ≡ count) }
{
    let field = value
        .get("latency")
        .ok_or(PlanRefusal::BadField(FieldName::Latency))?;
    match read_row(alloc, count, field) {
        Ok(latencies) => Ok(Times::new(latencies)),
        Err(unread) => Err(unread.because(PlanRefusal::BadField(FieldName::Latency))),
    }
}

fn offsets(alloc: Global, count: usize, value: &Value) -> Result<GivenOffsets, PlanRefusal>
    ensures exact { Gives PlanRefusal.NoMemory result (field fields.Offset (offsets_of count) (view value.now)) }
    ensures size { IfOk result (λ offsets. length offsets ≡ count * count) }
{
    let field = value
        .get("offset")
        .ok_or(PlanRefusal::BadField(FieldName::Offset))?;
    match read_square(alloc, count, field) {
        Ok(offsets) => Ok(GivenOffsets::new(offsets)),
        Err(unread) => Err(unread.because(PlanRefusal::BadField(FieldName::Offset))),
    }
}

fn pair(alloc: Global, count: usize, value: &Value) -> Result<Times, PlanRefusal>
    ensures exact { Gives PlanRefusal.NoMemory result (field fields.Pair (pair_of count) (view value.now)) }
    ensures size { IfOk result (λ pair. length pair ≡ count) }
{
    let field = value
        .get("pair")
        .ok_or(PlanRefusal::BadField(FieldName::Pair))?;
    match read_row(alloc, count, field) {
        Ok(pair) => Ok(Times::new(pair)),
        Err(unread) => Err(unread.because(PlanRefusal::BadField(FieldName::Pair))),
    }
}

fn total(value: &Value) -> Result<u64, PlanRefusal>
    ensures { Gives PlanRefusal.NoMemory result (field fields.Total whole_number (view value.now)) }
{
    value
        .get("total")
        .and_then(Value::as_u64)
        .ok_or(PlanRefusal::BadField(FieldName::Total))
}

/// The fields of a plan's text, or the first that hasn't its form.
#[tactic(auto, unfolding(crate::specs::Reading::fields_at))]
pub(crate) fn plan_fields(alloc: Global, value: &Value) -> Result<PlanFields, PlanRefusal>
    ensures exact { Gives PlanRefusal.NoMemory result (fields_at (view value.now)) }
    ensures forms { IfOk result HaveForms }
{
    if !value.is_object() {
        return Err(PlanRefusal::BadField(FieldName::Plan));
    }
    let _version = version(value)?;
    let names = names(alloc, value)?;
    let count = names.items().len();
    let trips = trips(alloc, count, value)?;
    let latencies = latencies(alloc, count, value)?;
    let offsets = offsets(alloc, count, value)?;
    let pair = pair(alloc, count, value)?;
    let total = total(value)?;
    Ok(PlanFields {
        names,
        trips,
        latencies,
        offsets,
        pair,
        total,
    })
}
