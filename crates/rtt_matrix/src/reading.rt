ghost use Rattle.std.specs.Prelude.{◌≡◌, ◌≤◌, IfOk, OnOk, length};
ghost use Rattle.helios_model.specs.Limits.{most_sites};
ghost use Rattle.helios_model.specs.Naming.{AreNames, is_count};
ghost use Rattle.json_text.specs.Reading.{Gives, GivesAs, demand};
ghost use Rattle.serde_json.specs.Events.{items_len};
ghost use Rattle.serde_json.specs.View.{items_view, view};
ghost use Rattle.rtt_matrix.specs.Reading.{items_at, matrix_at, matrix_of_text, names_of};

use crate::checks::check_trips;
use crate::refusal::MatrixRefusal;
use crate::rows::trips;
use helios_model::{MOST_SITES, Matrix, Names, first_bad_name};
use json_text::{are_texts, array_member, read_names, value_of};
use serde_json::Value;
use std::alloc::Global;

#[tactic(auto, unfolding(crate::specs::Reading::items_at))]
fn items<'a>(value: &'a Value, name: &str) -> Result<&'a Vec<Value>, MatrixRefusal>
    ensures { GivesAs (λ v. items_view v.now.items) MatrixRefusal.NoMemory result (items_at name.now (view value.now)) }
{
    array_member(value, name).ok_or(MatrixRefusal::BadShape)
}

// Whether so many texts can name the sites of a cluster.
#[tactic(auto, using(crate::proofs::Counting::view_len))]
fn check_count(texts: &[Value]) -> Result<(), MatrixRefusal>
    ensures exact { Gives MatrixRefusal.NoMemory result
        (demand (MatrixRefusal.SiteCount (items_len (items_view texts.now))) (is_count (items_len (items_view texts.now)))) }
    ensures some { OnOk result (1 ≤ length texts.now) }
    ensures few { OnOk result (length texts.now ≤ most_sites) }
{
    if texts.is_empty() || texts.len() > MOST_SITES as usize {
        return Err(MatrixRefusal::SiteCount(texts.len() as u64));
    }
    Ok(())
}

// The names of a cluster's sites. How many there are is tested before the first is copied.
#[tactic(auto, unfolding(crate::specs::Reading::names_of))]
fn names(alloc: Global, texts: &[Value]) -> Result<Names, MatrixRefusal>
    ensures exact { Gives MatrixRefusal.NoMemory result (names_of (items_view texts.now)) }
    ensures some { IfOk result (λ names. 1 ≤ length names) }
    ensures few { IfOk result (λ names. length names ≤ most_sites) }
    ensures names { IfOk result AreNames }
{
    check_count(texts)?;
    let names = read_names(alloc, texts).map_err(|unread| unread.because(MatrixRefusal::BadShape))?;
    match first_bad_name(names.as_slice()) {
        None => Ok(Names::new(names)),
        Some(place) => Err(MatrixRefusal::BadName(place)),
    }
}

#[tactic(auto, unfolding(crate::specs::Reading::matrix_at))]
fn matrix(alloc: Global, value: &Value) -> Result<Matrix, MatrixRefusal>
    ensures { Gives MatrixRefusal.NoMemory result (matrix_at (view value.now)) }
{
    let texts = items(value, "names")?;
    if !are_texts(texts.as_slice()) {
        return Err(MatrixRefusal::BadShape);
    }
    let rows = items(value, "rtt")?;
    let names = names(alloc, texts.as_slice())?;
    let count = names.items().len();
    let trips = trips(alloc, count, rows.as_slice())?;
    check_trips(count, trips.items())?;
    Ok(Matrix::new(names, trips))
}

/// The matrix that a text says, or the first rule that it breaks.
#[tactic(auto, unfolding(crate::specs::Reading::matrix_of_text))]
pub fn read_matrix(alloc: Global, input: &[u8]) -> Result<Matrix, MatrixRefusal>
    ensures { Gives MatrixRefusal.NoMemory result (matrix_of_text input.now) }
{
    let value = value_of(alloc, input)?.ok_or(MatrixRefusal::NotJson)?;
    matrix(alloc, &value)
}
