//! The parts of a step: keys, values and batches of one input.
ghost use Rattle.std.specs.Prelude.{◌≡◌, ◌<◌, ◌^◌, IfOk, decimal};
ghost use Rattle.sample_schedules.specs.Generator.{batch, key_name};

use disk_store::Stop;
use helios_model::{Bytes, Key, SiteId, Val};
use schedule_text::{Planned, PlannedInputs, Step};
use std::alloc::{AllocError, Global};

#[tactic(auto, using(crate::proofs::Texts::short_key))]
pub(crate) fn key(alloc: Global, number: u64) -> Result<Key, AllocError>
    requires { number < 50 }
    ensures { IfOk result (λ key. key ≡ key_name number) }
{
    let text = format!(in alloc; "k{number}")?;
    Ok(Key::new(Bytes::new(text.into_bytes())).unwrap())
}

#[tactic(auto, using(crate::proofs::Texts::short_value))]
pub(crate) fn value(alloc: Global, number: u64) -> Result<Val, AllocError>
    ensures { IfOk result (λ value. value ≡ decimal number) }
{
    let text = format!(in alloc; "{number}")?;
    Ok(Val::of(Bytes::new(text.into_bytes())))
}

pub(crate) fn batch(
    alloc: Global,
    site: SiteId,
    input: Planned,
    stop: Option<Stop>,
) -> Result<Step, AllocError>
    ensures { IfOk result (λ step. step ≡ batch site input stop) }
{
    let inputs = PlannedInputs::new(vec![in alloc; input]?);
    Ok(Step::Batch { site, inputs, stop })
}
