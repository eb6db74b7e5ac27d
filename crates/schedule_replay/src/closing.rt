//! The lines of a report after those of the steps: the commits, and what each site has come to.
ghost use Rattle.std.specs.Prelude.{◌≡◌, ◌++◌, ℕ, OnOk, List, length};
ghost use Rattle.std.specs.List.{flat_map, range_with_len};
ghost use Rattle.commit_rules.specs.Outcome.{IsSummaryOf};
ghost use Rattle.disk_store.specs.Memory.{MemState};
ghost use Rattle.helios_model.specs.Plans.{PlanData, count_of};
ghost use Rattle.helios_model.specs.World.{node_of};
ghost use Rattle.schedule_replay.specs.Progress.{Progress};
ghost use Rattle.schedule_replay.specs.Report.{commit_line, site_line};
ghost use Rattle.schedule_replay.specs.Standing.{AreSeats};
ghost use Rattle.schedule_replay.specs.Walks.{IsSeat};

use crate::host_laws::host_laws;
use crate::lines::{push_commit_line, push_site_line};
use commit_rules::Summary;
use helios_model::{CommitEvent, Plan, Time};
use node_host::Host;
use protocol_laws::batch_moves_one_node;
use std::alloc::AllocError;

#[tactic(auto, using(crate::proofs::Rests::commit_lines_drop))]
pub(crate) fn push_commit_lines(
    text: &mut Vec<u8>,
    commits: &[CommitEvent],
) -> Result<(), AllocError>
    ensures { OnOk result (text.new.items ≡ text.old.items ++ flat_map commit_line commits.now) }
{
    for commit in commits {
        push_commit_line(text, commit)?;
    }
    Ok(())
}

/// What a site has come to; one that was not opened has the empty node.
fn summary_of(held: &Option<Host>) -> Summary
    ensures { (plan : PlanData) (p : Progress) (site : ℕ) (m : MemState) → IsSeat plan p site held.now m → IsSummaryOf plan (node_of plan p.world site) result }
{
    host_laws();
    match held {
        Some(host) => host.summary(),
        None => Summary {
            time: Time::of(0),
            log: 0,
            pending: 0,
        },
    }
}

/// Adds what each site has come to.
pub(crate) fn push_site_lines(
    text: &mut Vec<u8>,
    plan: &Plan,
    hosts: &[Option<Host>],
) -> Result<(), AllocError>
    requires { length hosts.now ≡ count_of plan.now }
    ensures { OnOk result ((p : Progress) (bench : List MemState) → AreSeats plan.now p hosts.now bench
        → text.new.items ≡ text.old.items ++ flat_map (λ site. site_line plan.now (node_of plan.now p.world site)) (range_with_len 0 (count_of plan.now))) }
{
    batch_moves_one_node();
    for site in 0..plan.count() {
        push_site_line(text, site, summary_of(&hosts[site as usize]))?;
    }
    Ok(())
}
