ghost use Rattle.std.specs.Prelude.{◌≡◌, ℕ, ◌<◌, IfOk};
ghost use Rattle.helios_model.specs.Offset.{offset as planned_offset};
ghost use Rattle.helios_model.specs.Plans.{PlanData, count_of, rtt};
ghost use Rattle.serde_json.specs.Data.{Data, string};
ghost use Rattle.serde_json.specs.View.{view};
ghost use Rattle.commit_offsets.specs.Printing.{array_data, row_data, signed, square_data, whole};

use crate::offsets::offset;
use helios_model::{Name, Plan, SiteId};
use serde_json::Value;
use std::alloc::{AllocError, Global};

/// The JSON array of these whole numbers.
pub(crate) fn numbers(alloc: Global, numbers: &[u64]) -> Result<Value, AllocError>
    ensures { IfOk result (λ v. view v ≡ array_data whole numbers.now) }
{
    let mut items = Vec::with_capacity(alloc, numbers.len())?;
    for number in numbers {
        items.push(Value::from(*number))?;
    }
    Ok(Value::Array(items))
}

/// The JSON array of the numbers of these sites.
pub(crate) fn sites(alloc: Global, sites: &[u8]) -> Result<Value, AllocError>
    ensures { IfOk result (λ v. view v ≡ array_data whole sites.now) }
{
    let mut items = Vec::with_capacity(alloc, sites.len())?;
    for site in sites {
        items.push(Value::from(u64::from(*site)))?;
    }
    Ok(Value::Array(items))
}

/// The JSON array of these names.
pub(crate) fn names(alloc: Global, names: &[Name]) -> Result<Value, AllocError>
    ensures { IfOk result (λ v. view v ≡ array_data string names.now) }
{
    let mut items = Vec::with_capacity(alloc, names.len())?;
    for name in names {
        items.push(Value::String(String::from_str(alloc, name.text())?))?;
    }
    Ok(Value::Array(items))
}

/// What a plan says of two sites.
pub(crate) trait OfTwoSites {
    /// The JSON value of what it says.
    ghost said: { PlanData → ℕ → ℕ → Data };

    fn value(plan: &Plan, i: SiteId, j: SiteId) -> Value
        requires row { i < count_of plan.now }
        requires column { j < count_of plan.now }
        ensures { view result ≡ said plan.now i j };
}

/// Their round trip, in microseconds.
pub(crate) struct RoundTrips;

impl OfTwoSites for RoundTrips {
    ghost said = { λ plan i j. whole (rtt plan i j) };

    fn value(plan: &Plan, i: SiteId, j: SiteId) -> Value {
        Value::from(plan.rtt(i, j))
    }
}

/// Their offset, from the first to the second, in half microseconds.
pub(crate) struct Offsets;

impl OfTwoSites for Offsets {
    ghost said = { λ plan i j. signed (planned_offset plan i j) };

    fn value(plan: &Plan, i: SiteId, j: SiteId) -> Value {
        Value::from(offset(plan, i, j))
    }
}

#[tactic(auto, using(crate::proofs::Rows::one_more))]
fn row<T: OfTwoSites>(alloc: Global, plan: &Plan, site: u8) -> Result<Value, AllocError>
    requires { site < count_of plan.now }
    ensures { IfOk result (λ v. view v ≡ row_data (count_of plan.now) (T.said plan.now site)) }
{
    let count = plan.count();
    let mut items = Vec::with_capacity(alloc, count as usize)?;
    for j in 0..count {
        items.push(T::value(plan, SiteId::of(site), SiteId::of(j)))?;
    }
    Ok(Value::Array(items))
}

/// The JSON square of what a plan says of each two sites.
#[tactic(auto, using(crate::proofs::Rows::one_more))]
pub(crate) fn square<T: OfTwoSites>(alloc: Global, plan: &Plan) -> Result<Value, AllocError>
    ensures { IfOk result (λ v. view v ≡ square_data (count_of plan.now) (T.said plan.now)) }
{
    let count = plan.count();
    let mut rows = Vec::with_capacity(alloc, count as usize)?;
    for i in 0..count {
        rows.push(row::<T>(alloc, plan, i)?)?;
    }
    Ok(Value::Array(rows))
}
