ghost use Rattle.std.specs.Prelude.{◌≡◌, ◌*◌, ◌<◌, length};
ghost use Rattle.helios_model.specs.Offset.{offset as planned_offset};
ghost use Rattle.helios_model.specs.Plans.{count_of};
ghost use Rattle.commit_offsets.specs.Reading.{differs_at as is_other_at, other_offset};

use helios_model::{Plan, SiteId};

/// The offset from one site to another, in half microseconds: 0 from a site to itself, else the first one's latency
/// less the round trip.
pub fn offset(plan: &Plan, i: SiteId, j: SiteId) -> i64
    requires row { i < count_of plan.now }
    requires column { j < count_of plan.now }
    ensures { result ≡ planned_offset plan.now i j }
{
    if i == j {
        return 0;
    }
    plan.latency(i) as i64 - plan.rtt(i, j) as i64
}

// Whether the offset at a place of the square, row after row, isn't the plan's.
fn differs_at(plan: &Plan, offsets: &[i64], place: usize) -> bool
    requires square { length offsets.now ≡ count_of plan.now * count_of plan.now }
    requires within { place < length offsets.now }
    ensures { result ≡ is_other_at plan.now offsets.now place }
{
    let count = plan.count() as usize;
    offsets[place] != offset(plan, plan.site(place / count), plan.site(place % count))
}

/// The first place, in row order, where what is given isn't the plan's offset.
pub(crate) fn first_other(plan: &Plan, offsets: &[i64]) -> Option<usize>
    requires { length offsets.now ≡ count_of plan.now * count_of plan.now }
    ensures { result ≡ other_offset plan.now offsets.now }
{
    (0..offsets.len()).find(|place| differs_at(plan, offsets, *place))
}
