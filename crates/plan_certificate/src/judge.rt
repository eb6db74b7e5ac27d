ghost use Rattle.std.specs.Prelude.{◌≡◌, ℕ, ◌<◌, length, All, sum};
ghost use Rattle.helios_model.specs.Plans.{IsAccepted, count_of};
ghost use Rattle.helios_model.specs.Optimal.{pair_value, IsOptimal};
ghost use Rattle.plan_certificate.specs.Judgement.{verdict_of};
ghost use Rattle.plan_certificate.specs.Says.{Says};
ghost use Rattle.plan_certificate.specs.Verdict.{ArePaired};

use crate::pairing::first_unpaired;
use crate::verdict::Verdict;
use helios_model::{
    Certificate, Plan, SiteId, certificates_show_optimal, each_search_finds_first,
    each_short_pair_is_found, first_short, pairings_are_orders,
};

/// The verdict on a plan and a certificate of as many sites.
#[tactic(auto, using(crate::proofs::Judgements::verdict_is))]
pub fn check(plan: &Plan, certificate: &Certificate) -> Verdict
    requires { length certificate.now.pair ≡ count_of plan.now }
    ensures says { Says plan.now certificate.now.pair result }
    ensures exact { result ≡ verdict_of plan.now certificate.now.pair }
    ensures optimal { (total : ℕ) → result ≡ Verdict.Optimal total → IsOptimal plan.now }
{
    each_search_finds_first();
    each_short_pair_is_found();
    pairings_are_orders();
    judge(plan, certificate.pair.items())
}

fn judge(plan: &Plan, pair: &[u8]) -> Verdict
    requires { length pair.now ≡ count_of plan.now }
    ensures says { Says plan.now pair.now result }
    ensures optimal { (total : ℕ) → result ≡ Verdict.Optimal total → IsOptimal plan.now }
{
    if let Some((i, j)) = first_short(plan) {
        return Verdict::Short(i, j);
    }
    if let Some(place) = first_unpaired(plan.count(), pair) {
        return Verdict::NoPairing(place as u64);
    }
    weigh(plan, pair)
}

// The verdict on an accepted plan and a pairing of its sites.
#[tactic(auto, using(crate::proofs::Verdicts::certified, crate::proofs::Verdicts::certified_optimal, crate::proofs::Verdicts::partners_are_sites))]
fn weigh(plan: &Plan, pair: &[u8]) -> Verdict
    requires long { length pair.now ≡ count_of plan.now }
    requires accepted { IsAccepted plan.now }
    requires paired { ArePaired (count_of plan.now) pair.now (length pair.now) }
    ensures says { Says plan.now pair.now result }
    ensures optimal { (total : ℕ) → result ≡ Verdict.Optimal total → IsOptimal plan.now }
{
    certificates_show_optimal();
    pairings_are_orders();
    let given = plan.total();
    let value = value_of(plan, pair);
    if given == value {
        Verdict::Optimal(given)
    } else {
        Verdict::ValueDiffers(given, value)
    }
}

// The round trips to the partners, added up.
#[tactic(auto, using(helios_model::specs::Pairings::sum_below_more))]
fn value_of(plan: &Plan, pair: &[u8]) -> u64
    requires long { length pair.now ≡ count_of plan.now }
    requires sites { All (λ partner. partner < count_of plan.now) pair.now }
    ensures { result ≡ pair_value plan.now pair.now }
{
    let mut value = 0;
    for i in 0..plan.count() {
        value += plan.rtt(SiteId::of(i), SiteId::of(pair[i as usize]));
    }
    value
}
