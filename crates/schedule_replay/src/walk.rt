//! A replay step by step.
ghost use Rattle.std.specs.Prelude.{◌≡◌, ◌++◌, ◌∷◌, ◌-◌, ◌^◌, ◌<◌, [], List, None, IfOk, Err, IsErrOf, length, map, min, replicate};
ghost use Rattle.disk_store.specs.Memory.{MemState, cleared};
ghost use Rattle.helios_model.specs.Plans.{IsAccepted};
ghost use Rattle.helios_model.specs.World.{first_world};
ghost use Rattle.schedule_text.specs.declared.steps.Step.{Step};
ghost use Rattle.schedule_text.specs.Steps.{IsStep};
ghost use Rattle.schedule_replay.specs.Progress.{Progress, progress, site_of, volume};
ghost use Rattle.schedule_replay.specs.Refusals.{refusal_of};
ghost use Rattle.schedule_replay.specs.Replay.{IsReport};
ghost use Rattle.schedule_replay.specs.Seats.{BenchBetween, BenchStands};
ghost use Rattle.schedule_replay.specs.Walks.{IsNamed, IsWalkAt, RefusesAs};

use crate::closing::{push_commit_lines, push_site_lines};
use crate::output::Output;
use crate::refusal::{ReplayRefusal, inputs_refusal};
use crate::report::Report;
use crate::taken::Taken;
use crate::taking::take_step;
use disk_store::Bench;
use helios_model::{Bytes, Commits, Message, Plan, SiteId};
use node_host::Host;
use protocol_laws::{each_record_is_spellable, each_sent_is_message};
use schedule_text::Step;
use std::alloc::{AllocError, Global};
use std::marker::Model;

/// A step is refused where more bytes were written before it.
const MOST_VOLUME: u64 = 1 << 28;

/// A cluster on its way through the steps of a schedule, each site with its host over its disk of a bench.
#[derive(Drop)]
pub struct Walk {
    plan: Plan,
    /// The host of each site that was opened.
    hosts: Vec<Option<Host>>,
    output: Output,
    number: u64,
}

impl Model for Walk {
    ghost use Rattle.std.specs.Prelude.{◌≡◌, length};
    ghost use Rattle.helios_model.specs.Plans.{IsAccepted, count_of};
    ghost use Rattle.schedule_replay.specs.WalkStates.{WalkState};

    ghost Value = { WalkState };

    ghost view = { λ w. record {
      plan = w.plan;
      hosts = w.hosts.items;
      sent = w.output.sent.items;
      commits = w.output.commits.items;
      text = w.output.text.items;
      refusals = w.output.refusals;
      number = w.number;
      volume = w.output.volume;
    } };

    ghost invariant = { λ w. IsAccepted w.plan × (length w.hosts.items ≡ count_of w.plan) };
}

/// As many places as sites, none of them with a host.
fn no_hosts(alloc: Global, count: u8) -> Result<Vec<Option<Host>>, AllocError>
    ensures { IfOk result (λ hosts. hosts.items ≡ replicate count None) }
{
    let mut hosts = Vec::new(alloc);
    for _ in 0..count {
        hosts.push(None)?;
    }
    Ok(hosts)
}

/// The site of a step.
fn site_of(step: &Step) -> SiteId
    ensures { result ≡ site_of step.now }
{
    match step {
        Step::Batch { site, .. } => *site,
        Step::Restart { site, .. } => *site,
    }
}

/// Why a step is refused before it is run.
fn step_refusal(written: u64, number: u64, sent: &[Message], step: &Step) -> Option<ReplayRefusal>
    ensures { (p : Progress) → written ≡ min (volume p) (2 ^ 64 - 1) → number ≡ p.number → sent.now ≡ p.world.sent → result ≡ refusal_of p step.now }
{
    if written > MOST_VOLUME {
        return Some(ReplayRefusal::ReplayFull { step: number });
    }
    match step {
        Step::Batch { site, inputs, .. } => inputs_refusal(sent, number, *site, inputs.items()),
        Step::Restart { .. } => None,
    }
}

impl Walk {
    /// A walk in the first world of a plan. All disks of the bench are made empty first.
    pub fn start(alloc: Global, plan: &Plan, bench: &mut Bench) -> Result<Walk, AllocError>
        requires accepted { IsAccepted plan.now }
        ensures cleared { bench.new ≡ map cleared bench.old }
        ensures empty { BenchStands plan.now (first_world plan.now) bench.new }
        ensures starts { IfOk result (λ walk. IsWalkAt plan.now [] walk bench.new) }
    {
        bench.clear();
        let hosts = no_hosts(alloc, plan.count())?;
        Ok(Walk {
            plan: plan.copy()?,
            hosts,
            output: Output::new(alloc),
            number: 0,
        })
    }

    /// Takes a step, whose number is the count of the steps before it. A refusal consumes the walk.
    pub fn step(self, alloc: Global, step: &Step, bench: &mut Bench) -> Result<Walk, ReplayRefusal>
        requires planned { IsStep self.plan step.now }
        // The disks read as the call before left them, with nothing pending.
        requires stands { (steps : List Step) × IsWalkAt self.plan steps self bench.old }
        ensures goes_on { IfOk result (λ walk. (steps : List Step) → IsWalkAt self.plan steps self bench.old → IsWalkAt self.plan (steps ++ step.now ∷ []) walk bench.new) }
        ensures refused { (steps : List Step) → IsWalkAt self.plan steps self bench.old → RefusesAs (refusal_of (progress self.plan steps) step.now) result }
        ensures unmoved { IsNamed result → bench.new ≡ bench.old }
        ensures no_memory { IsErrOf result ReplayRefusal.NoMemory → (steps : List Step) → IsWalkAt self.plan steps self bench.old → BenchBetween self.plan (progress self.plan steps) step.now bench.new }
    {
        each_record_is_spellable();
        each_sent_is_message();
        let Walk {
            plan,
            mut hosts,
            mut output,
            number,
        } = self;
        if let Some(refusal) = step_refusal(output.volume, number, output.sent.as_slice(), step) {
            return Err(refusal);
        }
        let site = site_of(step);
        let place = site.number() as usize;
        let held = hosts[place].take();
        let disk = bench.disk(site);
        let Taken {
            host,
            commits,
            are_new,
        } = take_step(alloc, &plan, number, step, held, disk, &mut output)?;
        hosts[place] = Some(host);
        if are_new {
            output.commits.append(&mut commits.into_items())?;
        }
        Ok(Walk {
            plan,
            hosts,
            output,
            number: number + 1,
        })
    }

    /// The report of the steps that were taken.
    pub fn end(self, _alloc: Global) -> Result<Report, AllocError>
        ensures report { IfOk result (λ report. (steps : List Step) (bench : List MemState) → IsWalkAt self.plan steps self bench → IsReport self.plan steps report) }
    {
        let Walk {
            plan,
            hosts,
            output,
            ..
        } = self;
        let Output {
            mut text,
            commits,
            refusals,
            ..
        } = output;
        push_commit_lines(&mut text, commits.as_slice())?;
        push_site_lines(&mut text, &plan, hosts.as_slice())?;
        Ok(Report {
            text: Bytes::new(text),
            commits: Commits::new(commits),
            refusals,
        })
    }
}
