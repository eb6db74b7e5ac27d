//! The Prepares and the Commits of many records, by id.
ghost use Rattle.std.specs.Prelude.{◌≡◌, ◌++◌, ◌∷◌, [], IfOk, List, None, OnOk, Some, find, if◌then◌else◌, not};
ghost use Rattle.std.specs.BTreeMap.{get, is_at};
ghost use Rattle.std.specs.BTreeSet.{insert_key};
ghost use Rattle.std.specs.Cmp.Lexicographic.{pointwise};
ghost use Rattle.std.specs.List.{filter_map, flat_map};
ghost use Rattle.std.specs.Option.{is_some, option_map, option_or};
ghost use Rattle.helios_model.specs.declared.ids.TxnId.{TxnId};
ghost use Rattle.helios_model.specs.declared.records.Record.{Record};
ghost use Rattle.json_text.specs.Reading.{GivesAs};
ghost use Rattle.graph_audit.specs.Committed.{committed_of, is_another, same_prepare, same_read, same_write};
ghost use Rattle.graph_audit.specs.Gathered.{IsGathered};
ghost use Rattle.graph_audit.specs.Ordering.{id_cmp};
ghost use Rattle.graph_audit.specs.declared.refusal.DumpsRefusal.TheVariants.{NoMemory};

use crate::dumps::{Dumps, Prepares};
use crate::refusal::DumpsRefusal;
use helios_model::{Prepare, ReadItem, Record, Records, TxnId, WriteItem};
use std::alloc::{AllocError, Global};
use std::collections::{BTreeMap, BTreeSet};

fn same_reads(a: &[ReadItem], b: &[ReadItem]) -> bool
    ensures { result ≡ pointwise same_read a.now b.now }
{
    *a == *b
}

fn same_writes(a: &[WriteItem], b: &[WriteItem]) -> bool
    ensures { result ≡ pointwise same_write a.now b.now }
{
    *a == *b
}

fn same_prepare(a: &Prepare, b: &Prepare) -> bool
    ensures { result ≡ same_prepare a.now b.now }
{
    a.id() == b.id()
        && same_reads(a.reads().items(), b.reads().items())
        && same_writes(a.writes().items(), b.writes().items())
}

// What is known of some records.
#[derive(Drop)]
struct Gathered {
    // The first Prepare of each id.
    prepares: BTreeMap<TxnId, Prepare>,
    // The ids that have a Prepare that differs from the first.
    differing: BTreeSet<TxnId>,
    committed: BTreeSet<TxnId>,
}

// Whether another Prepare of its id differs from it.
fn is_another(prepares: &BTreeMap<TxnId, Prepare>, prepare: &Prepare) -> bool
    ensures { result ≡ is_another prepare.now (get id_cmp prepares.now prepare.now.id) }
{
    match prepares.get(&prepare.id()) {
        Some(first) => !same_prepare(first, prepare),
        None => false,
    }
}

// Adds a Prepare whose id has none yet.
fn add_first(prepares: &mut BTreeMap<TxnId, Prepare>, prepare: Prepare) -> Result<(), AllocError>
    ensures { OnOk result ((id : TxnId) → get id_cmp prepares.new id ≡ option_or (get id_cmp prepares.old id) (if is_at (id_cmp prepare.id) id then Some prepare else None)) }
{
    let id = prepare.id();
    if !prepares.contains_key(&id) {
        prepares.insert(id, prepare)?;
    }
    Ok(())
}

fn add_id(ids: &mut BTreeSet<TxnId>, id: TxnId) -> Result<(), AllocError>
    ensures { OnOk result (ids.new.keys ≡ insert_key id_cmp ids.old.keys id) }
{
    ids.insert(id)?;
    Ok(())
}

fn add_differing(
    prepares: &BTreeMap<TxnId, Prepare>,
    ids: &mut BTreeSet<TxnId>,
    prepare: &Prepare,
) -> Result<(), AllocError>
    ensures { OnOk result (ids.new.keys ≡ (if is_another prepare.now (get id_cmp prepares.now prepare.now.id) then insert_key id_cmp ids.old.keys prepare.now.id else ids.old.keys)) }
{
    if is_another(prepares, prepare) {
        add_id(ids, prepare.id())?;
    }
    Ok(())
}

impl Gathered {
    fn new(alloc: Global) -> Gathered
        ensures { IsGathered result [] }
    {
        Gathered {
            prepares: BTreeMap::new(alloc),
            differing: BTreeSet::new(alloc),
            committed: BTreeSet::new(alloc),
        }
    }

    fn take_prepare(&mut self, prepare: Prepare) -> Result<(), AllocError>
        ensures { OnOk result ((records : List Record) → IsGathered self.old records → IsGathered self.new (records ++ Record.Prepare prepare ∷ [])) }
    {
        add_differing(&self.prepares, &mut self.differing, &prepare)?;
        add_first(&mut self.prepares, prepare)?;
        Ok(())
    }

    fn take(&mut self, next: Record) -> Result<(), AllocError>
        ensures { OnOk result ((records : List Record) → IsGathered self.old records → IsGathered self.new (records ++ next ∷ [])) }
    {
        match next {
            Record::Prepare(prepare) => {
                self.take_prepare(prepare)?;
                Ok(())
            }
            Record::Commit { id, .. } => {
                add_id(&mut self.committed, id)?;
                Ok(())
            }
            Record::Abort { .. } => Ok(()),
        }
    }

    fn take_all(&mut self, records: Vec<Record>) -> Result<(), AllocError>
        ensures { OnOk result ((before : List Record) → IsGathered self.old before → IsGathered self.new (before ++ records.items)) }
    {
        for next in records {
            self.take(next)?;
        }
        Ok(())
    }
}

// What the records of some logs say.
fn gather_all(alloc: Global, logs: Vec<Records>) -> Result<Gathered, AllocError>
    ensures { IfOk result (λ g. IsGathered g (flat_map (λ log. log) logs.items)) }
{
    let mut found = Gathered::new(alloc);
    for log in logs {
        found.take_all(log.into_items())?;
    }
    Ok(found)
}

// Takes the Prepares of these ids out of the map, in the order of the ids.
fn take_committed(
    alloc: Global,
    prepares: &mut BTreeMap<TxnId, Prepare>,
    ids: BTreeSet<TxnId>,
) -> Result<Prepares, AllocError>
    ensures { IfOk result (λ found. found ≡ filter_map (get id_cmp prepares.old) ids.keys) }
{
    let mut found = Vec::with_capacity(alloc, ids.len())?;
    for id in ids {
        if let Some(prepare) = prepares.remove(&id) {
            found.push(prepare)?;
        }
    }
    Ok(Prepares::new(found))
}

fn first_unprepared<'a>(
    prepares: &BTreeMap<TxnId, Prepare>,
    ids: &'a BTreeSet<TxnId>,
) -> Option<&'a TxnId>
    ensures { option_map (λ id. id.now) result ≡ find (λ id. not (is_some (get id_cmp prepares.now id))) ids.now.keys }
{
    ids.iter().find(|id| !prepares.contains_key(*id))
}

/// The Prepares of the committed ids among the records of some logs, or the first rule that the records break.
#[tactic(auto, using(crate::proofs::Said::said_differs))]
pub(crate) fn committed(alloc: Global, logs: Vec<Records>) -> Result<Dumps, DumpsRefusal>
    ensures { GivesAs (λ d. d.committed) NoMemory result (committed_of (flat_map (λ log. log) logs.items)) }
{
    let Gathered {
        mut prepares,
        differing,
        committed,
    } = gather_all(alloc, logs)?;
    if let Some(id) = differing.first() {
        return Err(DumpsRefusal::PrepareDiffers(*id));
    }
    if let Some(id) = first_unprepared(&prepares, &committed) {
        return Err(DumpsRefusal::NoPrepare(*id));
    }
    let committed = take_committed(alloc, &mut prepares, committed)?;
    Ok(Dumps { committed })
}
