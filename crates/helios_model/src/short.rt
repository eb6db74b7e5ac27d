//! The first two sites of a plan whose latencies together don't reach their round trip.
ghost use Rattle.std.specs.Prelude.{◌≡◌, ℕ, ◌+◌, ◌<◌, ◌≤◌, IfSome, IfNone, MatchOption};
ghost use Rattle.helios_model.specs.Plans.{IsAccepted, count_of};
ghost use Rattle.helios_model.specs.Short.{first_short_of, EachShortPairIsFound, IsReached, IsFirstShort, IsFirstShortInRow, IsRowReached};

use crate::ids::SiteId;
use crate::plans::Plan;

/// The first two sites, row by row, whose latencies together don't reach their round trip.
#[tactic(auto, using(crate::proofs::ShortPairs::first_short_found, crate::proofs::ShortPairs::no_short_found))]
pub fn first_short(plan: &Plan) -> Option<(SiteId, SiteId)>
    ensures exact { result ≡ first_short_of plan.now }
    ensures found { IfSome result (λ pair. IsFirstShort plan.now pair.0 pair.1) }
    ensures none { IfNone result (IsAccepted plan.now) }
{
    let count = plan.count();
    for i in 0..count {
        let site = SiteId::of(i);
        if let Some(other) = short_in_row(plan, site) {
            return Some((site, other));
        }
    }
    None
}

fn short_in_row(plan: &Plan, site: SiteId) -> Option<SiteId>
    requires { site < count_of plan.now }
    ensures { MatchOption result (IsRowReached plan.now site (count_of plan.now)) (IsFirstShortInRow plan.now site) }
{
    let count = plan.count();
    let own = plan.latency(site);
    for j in site.number() + 1..count {
        let other = SiteId::of(j);
        if own + plan.latency(other) < 2 * plan.rtt(site, other) {
            return Some(other);
        }
    }
    None
}

/// The first short pair by its definition is the one by rows, and an accepted plan has none.
pub fn each_short_pair_is_found()
    ensures { EachShortPairIsFound }
{}
