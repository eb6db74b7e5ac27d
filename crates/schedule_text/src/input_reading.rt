//! What a value says as an input of a batch.
ghost use Rattle.std.specs.Prelude.{◌≡◌};
ghost use Rattle.serde_json.specs.View.{items_view, view};
ghost use Rattle.json_text.specs.Unread.{Reads};
ghost use Rattle.schedule_text.specs.Inputs.{forms_given, get_at, input_at, inputs_of, pull_at, push_at, puts_of, read_at, reads_of, request_at, site_member, site_of, status_at};

use crate::planned::{Planned, PlannedInputs, PlannedRead, PlannedReads, PlannedVersion};
use helios_model::{MOST_INPUTS, Plan, Puts, SiteId};
use json_text::{
    PartReader, PutReader, Unread, array_member, has_member, id, key, named_version, number_member,
    pair, read_keyed, read_parts,
};
use serde_json::Value;
use std::alloc::Global;

// ---- sites

#[tactic(auto, unfolding(crate::specs::Inputs::site_of))]
fn site_of(plan: &Plan, number: u64) -> Option<SiteId>
    ensures { result ≡ site_of plan.now number }
{
    if number < u64::from(plan.count()) {
        Some(plan.site(number as usize))
    } else {
        None
    }
}

/// The site of the plan that the member of this name numbers.
pub(crate) fn site_member(plan: &Plan, value: &Value, name: &str) -> Option<SiteId>
    ensures { result ≡ site_member plan.now name.now (view value.now) }
{
    site_of(plan, number_member(value, name)?)
}

// ---- reads and writes

#[tactic(auto, unfolding(crate::specs::Inputs::read_at))]
fn read(alloc: Global, value: &Value) -> Result<PlannedRead, Unread>
    ensures { Reads result (read_at (view value.now)) }
{
    let (first, second) = pair(value).ok_or(Unread::OtherForm)?;
    let key = key(alloc, first)?;
    let version = named_version(second).ok_or(Unread::OtherForm)?;
    Ok(PlannedRead {
        key,
        version: PlannedVersion::from(version),
    })
}

// Reads [KEY,VERSION], whose version may be `current`.
#[derive(Drop)]
struct PlannedReader;

impl PartReader for PlannedReader {
    type Part = PlannedRead;

    ghost said = { λ _ d. read_at d };

    fn read(&self, alloc: Global, value: &Value) -> Result<PlannedRead, Unread> {
        read(alloc, value)
    }
}

#[tactic(auto, unfolding(crate::specs::Inputs::reads_of))]
fn reads(alloc: Global, items: &[Value]) -> Result<PlannedReads, Unread>
    ensures { Reads result (reads_of (items_view items.now)) }
{
    let reads = read_keyed(alloc, items, &PlannedReader)?;
    Ok(PlannedReads::new(reads))
}

#[tactic(auto, unfolding(crate::specs::Inputs::puts_of))]
fn puts(alloc: Global, items: &[Value]) -> Result<Puts, Unread>
    ensures { Reads result (puts_of (items_view items.now)) }
{
    let puts = read_keyed(alloc, items, &PutReader)?;
    Ok(Puts::new(puts))
}

// ---- the five forms of an input

#[tactic(auto, unfolding(crate::specs::Inputs::get_at))]
fn get(alloc: Global, value: &Value) -> Result<Planned, Unread>
    ensures { Reads result (get_at (view value.now)) }
{
    let given = value.get("get").ok_or(Unread::OtherForm)?;
    let key = key(alloc, given)?;
    Ok(Planned::Get(key))
}

#[tactic(auto, unfolding(crate::specs::Inputs::status_at))]
fn status(value: &Value) -> Option<Planned>
    ensures { result ≡ status_at (view value.now) }
{
    let id = id(value.get("status")?)?;
    Some(Planned::Status(id))
}

#[tactic(auto, unfolding(crate::specs::Inputs::request_at))]
fn request(alloc: Global, value: &Value) -> Result<Planned, Unread>
    ensures { Reads result (request_at (view value.now)) }
{
    let at = number_member(value, "at").ok_or(Unread::OtherForm)?;
    let items = array_member(value, "reads").ok_or(Unread::OtherForm)?;
    let reads = reads(alloc, items.as_slice())?;
    let items = array_member(value, "writes").ok_or(Unread::OtherForm)?;
    let puts = puts(alloc, items.as_slice())?;
    Ok(Planned::Request { at, reads, puts })
}

#[tactic(auto, unfolding(crate::specs::Inputs::pull_at))]
fn pull(plan: &Plan, site: SiteId, value: &Value) -> Option<Planned>
    ensures { result ≡ pull_at plan.now site (view value.now) }
{
    let at = number_member(value, "at")?;
    let to = site_member(plan, value, "pull")?;
    if to == site {
        None
    } else {
        Some(Planned::Pull { at, to })
    }
}

#[tactic(auto, unfolding(crate::specs::Inputs::push_at))]
fn push(value: &Value) -> Option<Planned>
    ensures { result ≡ push_at (view value.now) }
{
    let at = number_member(value, "at")?;
    let message = number_member(value, "push")?;
    Some(Planned::Push { at, message })
}

// ---- inputs

/// How many of the names that tell the form of an input the value gives.
fn forms_given(value: &Value) -> usize
    ensures { result ≡ forms_given (view value.now) }
{
    let given = [
        has_member(value, "get"),
        has_member(value, "status"),
        has_member(value, "reads"),
        has_member(value, "pull"),
        has_member(value, "push"),
    ];
    given.iter().filter(|given| **given).count()
}

#[tactic(auto, unfolding(crate::specs::Inputs::input_at))]
fn input(alloc: Global, plan: &Plan, site: SiteId, value: &Value) -> Result<Planned, Unread>
    ensures { Reads result (input_at plan.now site (view value.now)) }
{
    if forms_given(value) > 1 {
        Err(Unread::OtherForm)
    } else if has_member(value, "get") {
        get(alloc, value)
    } else if has_member(value, "status") {
        status(value).ok_or(Unread::OtherForm)
    } else if has_member(value, "reads") {
        request(alloc, value)
    } else if has_member(value, "pull") {
        pull(plan, site, value).ok_or(Unread::OtherForm)
    } else {
        push(value).ok_or(Unread::OtherForm)
    }
}

// Reads an input of a site.
#[derive(Drop)]
struct InputReader<'a> {
    plan: &'a Plan,
    site: SiteId,
}

impl PartReader for InputReader<'_> {
    type Part = Planned;

    ghost said = { λ reader d. input_at reader.plan.now reader.site d };

    fn read(&self, alloc: Global, value: &Value) -> Result<Planned, Unread> {
        input(alloc, self.plan, self.site, value)
    }
}

/// The 1 to 16 inputs of a site that an array says.
#[tactic(auto, unfolding(crate::specs::Inputs::inputs_of))]
pub(crate) fn inputs(
    alloc: Global,
    plan: &Plan,
    site: SiteId,
    items: &[Value],
) -> Result<PlannedInputs, Unread>
    ensures { Reads result (inputs_of plan.now site (items_view items.now)) }
{
    let inputs = read_parts(alloc, items, MOST_INPUTS, &InputReader { plan, site })?;
    if inputs.is_empty() {
        Err(Unread::OtherForm)
    } else {
        Ok(PlannedInputs::new(inputs))
    }
}
