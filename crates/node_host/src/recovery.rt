//! What the batches of a journal make of the empty node.
ghost use Rattle.std.specs.Prelude.{◌≡◌, ◌+◌, ◌^◌, ◌<◌, ◌≤◌, ◌↔◌, [], IsTrue, All, IfOk, IfErr, is_some};
ghost use Rattle.helios_model.specs.declared.entries.Entry.{Entry};
ghost use Rattle.helios_model.specs.Limits.{most_sites};
ghost use Rattle.helios_model.specs.Plans.{PlanData, count_of};
ghost use Rattle.node_host.specs.Journals.{IsBatchPayload};
ghost use Rattle.node_host.specs.Opening.{IsForSite, RefusesBatch, TakesBatch};

use crate::HostFault;
use crate::redoing::Redoing;
use commit_rules::Core;
use helios_model::{Bytes, Commits, Entries, Entry, Input, Records, SiteId};
use log_records::{DecodeFault, decode_batch, what_is_read_is_a_batch};
use std::alloc::Global;

/// A core for the node after some batches, their number, the own Commits of the last one, and the node's whole log where it is kept.
#[derive(Drop)]
pub(crate) struct Recovery {
    pub(crate) core: Core,
    pub(crate) batches: u64,
    pub(crate) last: Commits,
    pub(crate) log: Option<Records>,
}

/// Whether an input is for this site: a message to another one, or a message for this one.
fn is_for_site(site: SiteId, input: &Input) -> bool
    ensures { IsTrue result ↔ IsForSite site input.now }
{
    match input {
        Input::Get(_) | Input::Status(_) | Input::Request(_) => true,
        Input::Pull(to) => to.number() != site.number(),
        Input::Push(m) => m.to.number() == site.number(),
    }
}

/// Whether all inputs are for this site.
fn are_for_site(site: SiteId, entries: &[Entry]) -> bool
    ensures { IsTrue result ↔ All (λ e. IsForSite site e.input) entries.now }
{
    for e in entries {
        if !is_for_site(site, &e.input) {
            return false;
        }
    }
    true
}

/// The batch that the payload at this place spells.
fn read_batch(
    alloc: Global,
    count: u8,
    site: SiteId,
    at: u64,
    payload: &Bytes,
) -> Result<Entries, HostFault>
    requires { count ≤ most_sites }
    ensures batch { IfOk result (λ entries. (plan : PlanData) → count_of plan ≡ count → IsBatchPayload plan site payload.now entries) }
    ensures none { IfErr result (λ fault. (plan : PlanData) → count_of plan ≡ count → RefusesBatch plan site at payload.now fault) }
{
    what_is_read_is_a_batch();
    let bytes = payload.items();
    let entries = match decode_batch(alloc, bytes, count) {
        Ok(entries) => entries,
        Err(DecodeFault::NoMemory) => return Err(HostFault::NoMemory),
        Err(_) => return Err(HostFault::Damaged { at }),
    };
    if !are_for_site(site, entries.items()) {
        return Err(HostFault::Damaged { at });
    }
    Ok(entries)
}

impl Recovery {
    /// This core, and no batch yet; with a log that is begun, or without one.
    pub(crate) fn new(alloc: Global, core: Core, log: Option<Records>) -> Recovery
        ensures core { result.core ≡ core }
        ensures log { result.log ≡ log }
        ensures none { result.batches ≡ 0 }
        ensures last { result.last ≡ [] }
    {
        Recovery {
            core,
            batches: 0,
            last: Commits::new(Vec::new(alloc)),
            log,
        }
    }

    /// Takes the batch that the payload spells whose gate is at this place, for a site of a plan of so many sites. Damaged
    /// where the payload is no batch of this site.
    pub(crate) fn take(
        self,
        alloc: Global,
        count: u8,
        site: SiteId,
        at: u64,
        payload: &Bytes,
    ) -> Result<Recovery, HostFault>
        requires few { count ≤ most_sites }
        requires count { count_of self.core.plan ≡ count }
        requires site { self.core.site ≡ site }
        requires room { self.batches + 1 < 2 ^ 64 }
        ensures takes { IfOk result (λ after. TakesBatch self.core.plan site payload.now self after) }
        ensures none { IfErr result (λ fault. RefusesBatch self.core.plan site at payload.now fault) }
        ensures kept { IfOk result (λ after. is_some after.log ≡ is_some self.log) }
        ensures plan { IfOk result (λ after. after.core.plan ≡ self.core.plan) }
        ensures site { IfOk result (λ after. after.core.site ≡ self.core.site) }
        ensures number { IfOk result (λ after. after.batches ≡ self.batches + 1) }
    {
        let entries = read_batch(alloc, count, site, at, payload)?;
        let redoing = Redoing {
            core: self.core,
            commits: Vec::new(alloc),
            log: self.log,
        };
        let Redoing { core, commits, log } = redoing.redo_all(entries.into_items())?;
        Ok(Recovery {
            core,
            batches: self.batches + 1,
            last: Commits::new(commits),
            log,
        })
    }
}
