//! Sums of units and of weighted latencies.
ghost use Rattle.std.specs.Prelude.{◌≡◌, ◌*◌, ◌<◌, ◌≤◌, length};
ghost use Rattle.helios_model.specs.Limits.{most_sites};
ghost use Rattle.helios_model.specs.Pairings.{sum_below};
ghost use Rattle.helios_model.specs.Grid.{at};
ghost use Rattle.helios_model.specs.Plans.{count_of, rtt};
ghost use Rattle.weighted_plan.specs.Flows.{AreUnits, column_sum, flow_value, row_sum};
ghost use Rattle.weighted_plan.specs.Weighted.{AreWeights, greatest_weight, weighted_sum};

use helios_model::{Plan, SiteId};

// The units of a row and a column.
#[tactic(auto, using(crate::proofs::Places::cell_within, crate::proofs::Places::units_at))]
fn units(count: u8, flow: &[u64], row: u8, column: u8) -> u64
    requires cells { length flow.now ≡ count * count }
    requires units { AreUnits flow.now }
    requires row { row < count }
    requires column { column < count }
    ensures value { result ≡ at count flow.now row column }
    ensures bounded { result ≤ greatest_weight }
{
    flow[row as usize * count as usize + column as usize]
}

/// The units of a row.
#[tactic(auto, using(helios_model::specs::Pairings::sum_below_more))]
pub(crate) fn row_sum(count: u8, flow: &[u64], row: u8) -> u64
    requires cells { length flow.now ≡ count * count }
    requires units { AreUnits flow.now }
    requires row { row < count }
    ensures { result ≡ row_sum count flow.now row }
{
    let mut sum = 0;
    for column in 0..count {
        sum += units(count, flow, row, column);
    }
    sum
}

/// The units of a column.
#[tactic(auto, using(helios_model::specs::Pairings::sum_below_more))]
pub(crate) fn column_sum(count: u8, flow: &[u64], column: u8) -> u64
    requires cells { length flow.now ≡ count * count }
    requires units { AreUnits flow.now }
    requires column { column < count }
    ensures { result ≡ column_sum count flow.now column }
{
    let mut sum = 0;
    for row in 0..count {
        sum += units(count, flow, row, column);
    }
    sum
}

/// The latencies, each times its site's weight, added up, in half microseconds.
#[tactic(auto, using(helios_model::specs::Pairings::sum_below_more))]
pub(crate) fn weighted_sum(plan: &Plan, weights: &[u64]) -> u64
    requires sites { length weights.now ≡ count_of plan.now }
    requires weights { AreWeights weights.now }
    ensures { result ≡ weighted_sum weights.now plan.now.latencies }
{
    let mut sum = 0;
    for i in 0..plan.count() {
        sum += weights[i as usize] * plan.latency(SiteId::of(i));
    }
    sum
}

// The round trips of a row, each as often as units flow over it, added up.
#[tactic(auto, using(helios_model::specs::Pairings::sum_below_more))]
fn row_value(plan: &Plan, flow: &[u64], row: u8) -> u64
    requires cells { length flow.now ≡ count_of plan.now * count_of plan.now }
    requires units { AreUnits flow.now }
    requires row { row < count_of plan.now }
    ensures value { result ≡ sum_below (λ j. rtt plan.now row j * at (count_of plan.now) flow.now row j) (count_of plan.now) }
    ensures bounded { result ≤ most_sites * 1000000000000 }
{
    let count = plan.count();
    let mut value = 0;
    for column in 0..count {
        let trip = plan.rtt(SiteId::of(row), SiteId::of(column));
        value += trip * units(count, flow, row, column);
    }
    value
}

/// The round trips, each as often as units flow over it, added up, in microseconds.
#[tactic(auto, using(helios_model::specs::Pairings::sum_below_more))]
pub(crate) fn flow_value(plan: &Plan, flow: &[u64]) -> u64
    requires cells { length flow.now ≡ count_of plan.now * count_of plan.now }
    requires units { AreUnits flow.now }
    ensures { result ≡ flow_value plan.now flow.now }
{
    let mut value = 0;
    for row in 0..plan.count() {
        value += row_value(plan, flow, row);
    }
    value
}
