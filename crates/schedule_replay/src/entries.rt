//! The entries of a batch: what each planned input asks of a site as the batch begins.
ghost use Rattle.std.specs.Prelude.{◌≡◌, ◌++◌, All, IfOk, IfSome, OnOk, map};
ghost use Rattle.std.specs.Option.{option_to_list};
ghost use Rattle.commit_rules.specs.Core.{IsCoreOf};
ghost use Rattle.helios_model.specs.Node.{Node};
ghost use Rattle.helios_model.specs.Plans.{PlanData};
ghost use Rattle.helios_model.specs.Spellable.{IsSpellableVersion};
ghost use Rattle.helios_model.specs.Step.{MayBeAsked};
ghost use Rattle.schedule_replay.specs.Entries.{entries_for, entry_for, read_for, version_for};
ghost use Rattle.schedule_replay.specs.Taking.{CanTake};
ghost use Rattle.schedule_text.specs.Steps.{ArePlannedReads, IsPlannedVersion};
ghost use Rattle.helios_model.specs.Spellable.{AreSpellablePuts, IsSpellableAsk};

use crate::refusal::message_at;
use helios_model::{Ask, Entry, Input, Message, Puts, ReadItem, Reads, Version};
use node_host::Host;
use schedule_text::{Planned, PlannedRead, PlannedVersion};
use std::alloc::{AllocError, Global};

fn version_for(host: &Host, read: &PlannedRead) -> Version
    requires { IsPlannedVersion read.now.version }
    ensures value { (plan : PlanData) (n : Node) → IsCoreOf host.now.core plan n → result ≡ version_for n.log read.now.key read.now.version }
    ensures spelled { IsSpellableVersion result }
{
    match read.version {
        PlannedVersion::At(version) => version,
        PlannedVersion::Current => host.current(&read.key).0,
    }
}

fn read_for(host: &Host, read: &PlannedRead) -> Result<ReadItem, AllocError>
    requires { IsPlannedVersion read.now.version }
    ensures value { IfOk result (λ r. (plan : PlanData) (n : Node) → IsCoreOf host.now.core plan n → r ≡ read_for n.log read.now) }
    ensures key { IfOk result (λ r. r.key ≡ read.now.key) }
    ensures spelled { IfOk result (λ r. IsSpellableVersion r.version) }
{
    let key = read.key.copy()?;
    let version = version_for(host, read);
    Ok(ReadItem { key, version })
}

fn reads_for(alloc: Global, host: &Host, reads: &[PlannedRead]) -> Result<Vec<ReadItem>, AllocError>
    requires { All (λ r. IsPlannedVersion r.version) reads.now }
    ensures value { IfOk result (λ rs. (plan : PlanData) (n : Node) → IsCoreOf host.now.core plan n → rs.items ≡ map (read_for n.log) reads.now) }
    ensures keys { IfOk result (λ rs. map (λ r. r.key) rs.items ≡ map (λ r. r.key) reads.now) }
    ensures spelled { IfOk result (λ rs. All (λ r. IsSpellableVersion r.version) rs.items) }
{
    let mut items = Vec::with_capacity(alloc, reads.len())?;
    for read in reads {
        items.push(read_for(host, read)?)?;
    }
    Ok(items)
}

/// What a planned request asks of a site.
#[tactic(auto, using(crate::proofs::Asks::is_ask, crate::proofs::Asks::is_asked))]
fn ask_for(
    alloc: Global,
    host: &Host,
    reads: &[PlannedRead],
    puts: &Puts,
) -> Result<Ask, AllocError>
    requires reads { ArePlannedReads reads.now }
    requires puts { AreSpellablePuts puts.now }
    ensures value { IfOk result (λ ask. (plan : PlanData) (n : Node) → IsCoreOf host.now.core plan n → ask ≡ record { reads = map (read_for n.log) reads.now; puts = puts.now }) }
    ensures spelled { IfOk result IsSpellableAsk }
{
    let reads = Reads::new(reads_for(alloc, host, reads)?);
    Ok(Ask::of(reads, puts.copy()?))
}

/// What a planned input asks of a site; None where no message has its number.
fn entry_for(
    alloc: Global,
    host: &Host,
    sent: &[Message],
    input: &Planned,
) -> Result<Option<Entry>, AllocError>
    requires { CanTake host.now.core.plan host.now.core.site sent.now input.now }
    ensures value { IfOk result (λ found. (plan : PlanData) (n : Node) → IsCoreOf host.now.core plan n → found ≡ entry_for n.log sent.now input.now) }
    ensures asked { IfOk result (λ found. IfSome found (λ e. MayBeAsked host.now.core.plan host.now.core.site e.input)) }
{
    let entry = match input {
        Planned::Get(key) => Entry {
            reading: 0,
            input: Input::Get(key.copy()?),
        },
        Planned::Status(id) => Entry {
            reading: 0,
            input: Input::Status(*id),
        },
        Planned::Request { at, reads, puts } => Entry {
            reading: *at,
            input: Input::Request(ask_for(alloc, host, reads.items(), puts)?),
        },
        Planned::Pull { at, to } => Entry {
            reading: *at,
            input: Input::Pull(*to),
        },
        Planned::Push { at, message } => match message_at(sent, *message) {
            Some(m) => Entry {
                reading: *at,
                input: Input::Push(m.copy(alloc)?),
            },
            None => return Ok(None),
        },
    };
    Ok(Some(entry))
}

fn push_found(entries: &mut Vec<Entry>, found: Option<Entry>) -> Result<(), AllocError>
    ensures { OnOk result (entries.new.items ≡ entries.old.items ++ option_to_list found) }
{
    if let Some(entry) = found {
        entries.push(entry)?;
    }
    Ok(())
}

/// The entries of a batch, as they stand when it begins.
pub(crate) fn entries_for(
    alloc: Global,
    host: &Host,
    sent: &[Message],
    inputs: &[Planned],
) -> Result<Vec<Entry>, AllocError>
    requires { All (CanTake host.now.core.plan host.now.core.site sent.now) inputs.now }
    ensures value { IfOk result (λ es. (plan : PlanData) (n : Node) → IsCoreOf host.now.core plan n → es.items ≡ entries_for n.log sent.now inputs.now) }
    ensures asked { IfOk result (λ es. All (λ e. MayBeAsked host.now.core.plan host.now.core.site e.input) es.items) }
{
    let mut entries = Vec::with_capacity(alloc, inputs.len())?;
    for input in inputs {
        push_found(&mut entries, entry_for(alloc, host, sent, input)?)?;
    }
    Ok(entries)
}
