//! The JSON values of lists.
ghost use Rattle.std.specs.Prelude.{◌≡◌, ◌*◌, ◌<◌, IfOk, length};
ghost use Rattle.serde_json.specs.Data.{string};
ghost use Rattle.serde_json.specs.View.{view};
ghost use Rattle.weighted_plan.specs.Printing.{array_data, row_data, square_data, whole};

use helios_model::Name;
use serde_json::Value;
use std::alloc::{AllocError, Global};

/// The array of these whole numbers.
pub(crate) fn numbers(alloc: Global, numbers: &[u64]) -> Result<Value, AllocError>
    ensures { IfOk result (λ v. view v ≡ array_data whole numbers.now) }
{
    let mut items = Vec::with_capacity(alloc, numbers.len())?;
    for number in numbers {
        items.push(Value::from(*number))?;
    }
    Ok(Value::Array(items))
}

/// The array of these names.
pub(crate) fn names(alloc: Global, names: &[Name]) -> Result<Value, AllocError>
    ensures { IfOk result (λ v. view v ≡ array_data string names.now) }
{
    let mut items = Vec::with_capacity(alloc, names.len())?;
    for name in names {
        items.push(Value::String(String::from_str(alloc, name.text())?))?;
    }
    Ok(Value::Array(items))
}

#[tactic(auto, using(crate::proofs::Rows::one_more, crate::proofs::Places::cell_within))]
fn row(alloc: Global, count: u8, square: &[u64], place: u8) -> Result<Value, AllocError>
    requires cells { length square.now ≡ count * count }
    requires within { place < count }
    ensures { IfOk result (λ v. view v ≡ row_data count square.now place) }
{
    let mut items = Vec::with_capacity(alloc, count as usize)?;
    for column in 0..count {
        let number = square[place as usize * count as usize + column as usize];
        items.push(Value::from(number))?;
    }
    Ok(Value::Array(items))
}

/// The rows of this square, each an array of whole numbers.
#[tactic(auto, using(crate::proofs::Rows::one_more))]
pub(crate) fn square(alloc: Global, count: u8, square: &[u64]) -> Result<Value, AllocError>
    requires { length square.now ≡ count * count }
    ensures { IfOk result (λ v. view v ≡ square_data count square.now) }
{
    let mut rows = Vec::with_capacity(alloc, count as usize)?;
    for place in 0..count {
        rows.push(row(alloc, count, square, place)?)?;
    }
    Ok(Value::Array(rows))
}
