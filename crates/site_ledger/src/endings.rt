//! What is kept of own transactions that ended.
ghost use Rattle.std.specs.Prelude.{◌≡◌, ℕ, [], ◌∷◌, ◌++◌, Some, None, filter, OnOk, if◌then◌else◌};
ghost use Rattle.std.specs.Option.{option_or};
ghost use Rattle.std.specs.Ordering.{nat_cmp};
ghost use Rattle.std.specs.BTreeMap.{IsOrdered};
ghost use Rattle.helios_model.specs.Ids.{same_id};
ghost use Rattle.helios_model.specs.Log.{event_at};
ghost use Rattle.helios_model.specs.World.{is_own_commit};
ghost use Rattle.site_ledger.specs.Ledger.{end_in};

use helios_model::{CommitEvent, Prepare, SiteId, State, Time, TxnId};
use std::alloc::AllocError;
use std::collections::BTreeMap;

/// Keeps how a transaction ended, by the time of its name, where it is the site's own. The first end stays.
pub(crate) fn keep_end(
    ended: &mut BTreeMap<u64, State>,
    site: SiteId,
    id: &TxnId,
    end: State,
) -> Result<(), AllocError>
    ensures ordered { OnOk result (IsOrdered nat_cmp ended.old → IsOrdered nat_cmp ended.new) }
    ensures kept { OnOk result ((time : ℕ) → end_in ended.new.entries time ≡ option_or (end_in ended.old.entries time) (if same_id id.now (record { site = site; time = time }) then Some end else None)) }
{
    if id.site != site {
        return Ok(());
    }
    let time = id.time.half_micros();
    if ended.contains_key(&time) {
        return Ok(());
    }
    ended.insert(time, end)?;
    Ok(())
}

/// Keeps a commit event, where its transaction is the site's own.
pub(crate) fn keep_commit(
    commits: &mut Vec<CommitEvent>,
    site: SiteId,
    prepare: Prepare,
    time: Time,
) -> Result<(), AllocError>
    ensures { OnOk result (commits.new.items ≡ commits.old.items ++ filter (is_own_commit site) (event_at time prepare ∷ [])) }
{
    if prepare.id().site != site {
        return Ok(());
    }
    commits.push(CommitEvent { prepare, time })?;
    Ok(())
}
