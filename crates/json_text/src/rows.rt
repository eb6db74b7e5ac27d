//! Rows and squares of numbers.
ghost use Rattle.std.specs.Prelude.{◌≡◌, ◌*◌, Option, length, IfOk, is_some, option_map};
ghost use Rattle.std.specs.List.{flat_map, list_all};
ghost use Rattle.serde_json.specs.Data.{Data, array};
ghost use Rattle.serde_json.specs.View.{view, items_view};
ghost use Rattle.json_text.specs.Arrays.{whole_number, integer, row_of, square_of};
ghost use Rattle.json_text.specs.Lists.{each_of};
ghost use Rattle.json_text.specs.Unread.{ReadsAs};

use crate::lists::{PartReader, read_parts};
use crate::refusals::Unread;
use serde_json::Value;
use std::alloc::Global;
use std::marker::PhantomData;

/// A number of a JSON text.
pub trait JsonNumber: Copy {
    /// What a value is as such a number, nothing where it is none.
    ghost of: { Data → Option Self };

    fn from_value(value: &Value) -> Option<Self>
        ensures { result ≡ of (view value.now) };
}

impl JsonNumber for u64 {
    ghost of = { whole_number };

    fn from_value(value: &Value) -> Option<u64> {
        value.as_u64()
    }
}

impl JsonNumber for i64 {
    ghost of = { integer };

    fn from_value(value: &Value) -> Option<i64> {
        value.as_i64()
    }
}

#[derive(Drop)]
struct Numbers<N> {
    of: PhantomData<N>,
}

impl<N: JsonNumber> PartReader for Numbers<N> {
    type Part = N;

    ghost said = { λ _ d. N.of d };

    fn read(&self, _alloc: Global, value: &Value) -> Result<N, Unread> {
        N::from_value(value).ok_or(Unread::OtherForm)
    }
}

/// The numbers of an array that has `count` items.
#[tactic(auto, using(crate::proofs::RowSteps::row_found, crate::proofs::RowSteps::row_of_other_length, crate::proofs::RowSteps::row_of_no_array))]
pub fn read_row<N: JsonNumber>(alloc: Global, count: usize, value: &Value) -> Result<Vec<N>, Unread>
    ensures exact { ReadsAs (λ v. v.items) result (row_of count N.of (view value.now)) }
    ensures size { IfOk result (λ v. length v.items ≡ count) }
{
    match value.as_array() {
        Some(items) if items.len() == count => {
            read_parts(alloc, items.as_slice(), count, &Numbers { of: PhantomData })
        }
        _ => Err(Unread::OtherForm),
    }
}

fn all_numbers<N: JsonNumber>(items: &[Value]) -> bool
    ensures { result ≡ list_all (λ v. is_some (N.of (view v))) items.now }
{
    items.iter().all(|value| N::from_value(value).is_some())
}

/// Whether a value is an array of `count` numbers. It takes no memory.
#[tactic(auto, using(crate::proofs::RowSteps::row_told, crate::proofs::RowSteps::row_of_other_length, crate::proofs::RowSteps::row_of_no_array))]
pub fn is_row<N: JsonNumber>(count: usize, value: &Value) -> bool
    ensures { result ≡ is_some (row_of count N.of (view value.now)) }
{
    match value.as_array() {
        Some(items) if items.len() == count => all_numbers::<N>(items.as_slice()),
        _ => false,
    }
}

/// The numbers of these rows, row after row, where they are the rows of a square of `count`.
#[tactic(auto, using(crate::proofs::RowSteps::square_found, crate::proofs::RowSteps::square_of_other_height))]
pub fn read_rows<N: JsonNumber>(
    alloc: Global,
    count: usize,
    rows: &[Value],
) -> Result<Vec<N>, Unread>
    ensures exact { ReadsAs (λ v. v.items) result (square_of count N.of (array (items_view rows.now))) }
    ensures size { IfOk result (λ v. length v.items ≡ count * count) }
{
    if rows.len() == count {
        rows_of(alloc, count, rows)
    } else {
        Err(Unread::OtherForm)
    }
}

/// The numbers of a square of `count` rows, row after row.
#[tactic(auto, using(crate::proofs::RowSteps::square_of_array, crate::proofs::RowSteps::square_of_no_array))]
pub fn read_square<N: JsonNumber>(
    alloc: Global,
    count: usize,
    value: &Value,
) -> Result<Vec<N>, Unread>
    ensures exact { ReadsAs (λ v. v.items) result (square_of count N.of (view value.now)) }
    ensures size { IfOk result (λ v. length v.items ≡ count * count) }
{
    match value.as_array() {
        Some(rows) => read_rows(alloc, count, rows.as_slice()),
        None => Err(Unread::OtherForm),
    }
}

#[tactic(auto, using(crate::proofs::RowSteps::rows_more, crate::proofs::RowSteps::rows_fail, crate::proofs::RowSteps::rows_end))]
fn rows_of<N: JsonNumber>(alloc: Global, count: usize, rows: &[Value]) -> Result<Vec<N>, Unread>
    ensures exact { ReadsAs (λ v. v.items) result
        (option_map (flat_map (λ row. row)) (each_of (row_of count N.of) (items_view rows.now))) }
    ensures size { IfOk result (λ v. length v.items ≡ length rows.now * count) }
{
    let mut numbers = Vec::new(alloc);
    for value in rows {
        let more = read_row(alloc, count, value)?;
        numbers.extend_from_slice(more.as_slice())?;
    }
    Ok(numbers)
}
