ghost use Rattle.std.specs.Prelude.{◌≡◌, ◌*◌, ◌<◌, ◌↔◌, ℕ, length, IsTrue, MatchOption};
ghost use Rattle.helios_model.specs.Plans.{IsAccepted, count_of};
ghost use Rattle.weighted_plan.specs.Flows.{AreUnits, IsBalanced};
ghost use Rattle.weighted_plan.specs.Says.{AreBalanced, IsFirstUnbalanced, Says};
ghost use Rattle.weighted_plan.specs.Verdict.{verdict_of};
ghost use Rattle.weighted_plan.specs.Weighted.{AreWeights, IsWeightedOptimal};

use crate::laws::flows_show_optimal;
use crate::sums::{column_sum, flow_value, row_sum, weighted_sum};
use crate::verdict::WeightedVerdict;
use crate::weights::{Flow, Weights};
use helios_model::{Plan, each_search_finds_first, each_short_pair_is_found, first_short};

// Whether the row and the column of a site both have as many units as its weight.
fn is_balanced(count: u8, weights: &[u64], flow: &[u64], site: u8) -> bool
    requires sites { length weights.now ≡ count }
    requires cells { length flow.now ≡ count * count }
    requires units { AreUnits flow.now }
    requires site { site < count }
    ensures { IsTrue result ↔ IsBalanced count weights.now flow.now site }
{
    let weight = weights[site as usize];
    row_sum(count, flow, site) == weight && column_sum(count, flow, site) == weight
}

// The first site that isn't balanced.
fn first_unbalanced(count: u8, weights: &[u64], flow: &[u64]) -> Option<u8>
    requires sites { length weights.now ≡ count }
    requires cells { length flow.now ≡ count * count }
    requires units { AreUnits flow.now }
    ensures { MatchOption result (AreBalanced count weights.now flow.now count) (IsFirstUnbalanced count weights.now flow.now) }
{
    for site in 0..count {
        if !is_balanced(count, weights, flow, site) {
            return Some(site);
        }
    }
    None
}

// The verdict on an accepted plan whose sites are balanced.
#[tactic(auto, using(crate::proofs::Verdicts::certified, crate::proofs::Verdicts::certified_optimal))]
fn compare(plan: &Plan, weights: &[u64], flow: &[u64]) -> WeightedVerdict
    requires sites { length weights.now ≡ count_of plan.now }
    requires weights { AreWeights weights.now }
    requires cells { length flow.now ≡ count_of plan.now * count_of plan.now }
    requires units { AreUnits flow.now }
    requires accepted { IsAccepted plan.now }
    requires balanced { AreBalanced (count_of plan.now) weights.now flow.now (count_of plan.now) }
    ensures says { Says plan.now weights.now flow.now result }
    ensures optimal { (total : ℕ) → result ≡ WeightedVerdict.Optimal total → IsWeightedOptimal plan.now weights.now }
{
    flows_show_optimal();
    let given = weighted_sum(plan, weights);
    let value = flow_value(plan, flow);
    if given == value {
        WeightedVerdict::Optimal(given)
    } else {
        WeightedVerdict::ValueDiffers(given, value)
    }
}

/// The verdict on a plan with as many weights and a flow between its sites. It takes no memory.
#[tactic(auto, using(crate::proofs::Judgements::verdict_is, crate::proofs::Judgements::short_is, crate::proofs::Judgements::unbalanced_is))]
pub fn check_weighted(plan: &Plan, weights: &Weights, flow: &Flow) -> WeightedVerdict
    requires weights { length weights.now ≡ count_of plan.now }
    requires cells { length flow.now ≡ count_of plan.now * count_of plan.now }
    ensures says { Says plan.now weights.now flow.now result }
    ensures exact { result ≡ verdict_of plan.now weights.now flow.now }
    ensures optimal { (total : ℕ) → result ≡ WeightedVerdict.Optimal total → IsWeightedOptimal plan.now weights.now }
{
    each_search_finds_first();
    each_short_pair_is_found();
    let (weights, flow) = (weights.items(), flow.items());
    if let Some((i, j)) = first_short(plan) {
        return WeightedVerdict::Short(i, j);
    }
    if let Some(site) = first_unbalanced(plan.count(), weights, flow) {
        return WeightedVerdict::BadFlow(u64::from(site));
    }
    compare(plan, weights, flow)
}
