// Which of a site's transactions conflict with another one, gathered from what touches its keys.
ghost use Rattle.std.specs.Prelude.{◌≡◌, ℕ, List, Bool, ◌||◌, ◌&&◌, filter, map, IfOk, OnOk};
ghost use Rattle.std.specs.List.{list_any};
ghost use Rattle.std.specs.Map.{values_of};
ghost use Rattle.helios_model.specs.Ids.{same_id};
ghost use Rattle.helios_model.specs.Log.{is_own};
ghost use Rattle.helios_model.specs.Transactions.{Transaction, conflict};
ghost use Rattle.prepare_pools.specs.Line.{IsLine};
ghost use Rattle.prepare_pools.specs.Touches.{IsIndexed};
ghost use Rattle.prepare_pools.specs.Conflicts.{IsFound, chosen, hits};

use crate::conflicts::counts;
use crate::index::Index;
use crate::line::Line;
use crate::touch::Touch;
use helios_model::{Keyed, Prepare, SiteId, TxnId};
use std::alloc::{AllocError, Global};
use std::collections::BTreeMap;

fn is_chosen(site: SiteId, any: bool, touch: &Touch) -> bool
    ensures { result ≡ chosen site any touch.now }
{
    touch.id.site.number() == site.number() && counts(touch, any)
}

// One more touch.
fn gather_touch(
    line: &Line,
    site: SiteId,
    any: bool,
    touch: &Touch,
    found: &mut BTreeMap<u64, TxnId>,
) -> Result<(), AllocError>
    requires { IsLine (λ p. p.id) line.now }
    ensures { OnOk result ((test : Transaction → Bool) → IsFound test line.now found.old.entries → IsFound (λ q. test q || (chosen site any touch.now && same_id q.id touch.now.id)) line.now found.new.entries) }
{
    if !is_chosen(site, any, touch) {
        return Ok(());
    }
    match line.arrival(&touch.id) {
        Some(arrival) => {
            found.insert(arrival, touch.id)?;
            Ok(())
        }
        None => Ok(()),
    }
}

// The touches of one key.
fn gather(
    line: &Line,
    site: SiteId,
    any: bool,
    touches: &[Touch],
    found: &mut BTreeMap<u64, TxnId>,
) -> Result<(), AllocError>
    requires { IsLine (λ p. p.id) line.now }
    ensures { OnOk result ((test : Transaction → Bool) → IsFound test line.now found.old.entries → IsFound (λ q. test q || list_any (λ t. chosen site any t && same_id q.id t.id) touches.now) line.now found.new.entries) }
{
    for touch in touches {
        gather_touch(line, site, any, touch, found)?;
    }
    Ok(())
}

// The touches of several keys.
fn gather_each<T: Keyed>(
    line: &Line,
    index: &Index,
    site: SiteId,
    any: bool,
    items: &[T],
    found: &mut BTreeMap<u64, TxnId>,
) -> Result<(), AllocError>
    requires line { IsLine (λ p. p.id) line.now }
    requires indexed { IsIndexed (values_of line.now) index.now }
    ensures { OnOk result ((test : Transaction → Bool) → IsFound test line.now found.old.entries → IsFound (λ q. test q || (is_own site q && list_any (λ key. hits any key q) (map T.key_of items.now))) line.now found.new.entries) }
{
    match items {
        [] => Ok(()),
        [first, rest @ ..] => {
            gather(line, site, any, index.touching(first.key()), found)?;
            gather_each(line, index, site, any, rest, found)
        }
    }
}

// The ids of a site's transactions that conflict with another one.
pub(crate) fn own_conflicts(
    alloc: Global,
    line: &Line,
    index: &Index,
    site: SiteId,
    p: &Prepare,
) -> Result<Vec<TxnId>, AllocError>
    requires line { IsLine (λ p. p.id) line.now }
    requires indexed { IsIndexed (values_of line.now) index.now }
    ensures { IfOk result (λ ids. ids.items ≡ map (λ q. q.id) (filter (conflict p.now) (filter (is_own site) (values_of line.now)))) }
{
    let mut found = BTreeMap::new(alloc);
    gather_each(line, index, site, true, p.writes().items(), &mut found)?;
    gather_each(line, index, site, false, p.reads().items(), &mut found)?;
    let mut ids = Vec::new(alloc);
    for id in found.values() {
        ids.push(*id)?;
    }
    Ok(ids)
}
