ghost use Rattle.std.specs.Prelude.{◌≡◌, ◌≤◌, IfOk, length};
ghost use Rattle.helios_model.specs.Limits.{most_sites};
ghost use Rattle.json_text.specs.Reading.{Gives};
ghost use Rattle.json_text.specs.Unread.{Reads};
ghost use Rattle.serde_json.specs.View.{view};
ghost use Rattle.weighted_plan.specs.Reading.{weights_at, weights_in, weights_of_text};

use crate::refusal::WeightsRefusal;
use crate::weights::Weights;
use json_text::{Unread, read_row, value_of};
use serde_json::Value;
use std::alloc::Global;

#[tactic(auto, unfolding(crate::specs::Reading::weights_in), using(crate::proofs::Readings::all_weights, crate::proofs::Readings::other_numbers))]
fn weights_in(alloc: Global, count: u8, field: &Value) -> Result<Weights, Unread>
    requires some { 1 ≤ count }
    requires few { count ≤ most_sites }
    ensures exact { Reads result (weights_in count (view field.now)) }
    ensures size { IfOk result (λ weights. length weights ≡ count) }
{
    let numbers = read_row(alloc, count as usize, field)?;
    Weights::new(numbers).ok_or(Unread::OtherForm)
}

#[tactic(auto, unfolding(crate::specs::Reading::weights_at))]
fn weights(alloc: Global, count: u8, value: &Value) -> Result<Weights, WeightsRefusal>
    requires some { 1 ≤ count }
    requires few { count ≤ most_sites }
    ensures exact { Gives WeightsRefusal.NoMemory result (weights_at count (view value.now)) }
    ensures size { IfOk result (λ weights. length weights ≡ count) }
{
    let field = value.get("weights").ok_or(WeightsRefusal::BadWeights)?;
    weights_in(alloc, count, field).map_err(|unread| unread.because(WeightsRefusal::BadWeights))
}

/// The weights that a text says for so many sites, or the first rule that it breaks.
#[tactic(auto, unfolding(crate::specs::Reading::weights_of_text))]
pub fn read_weights(alloc: Global, input: &[u8], count: u8) -> Result<Weights, WeightsRefusal>
    requires some { 1 ≤ count }
    requires few { count ≤ most_sites }
    ensures exact { Gives WeightsRefusal.NoMemory result (weights_of_text count input.now) }
    ensures size { IfOk result (λ weights. length weights ≡ count) }
{
    let value = value_of(alloc, input)?.ok_or(WeightsRefusal::NotJson)?;
    weights(alloc, count, &value)
}
