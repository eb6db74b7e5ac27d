ghost use Rattle.std.specs.Prelude.{◌≡◌, ℕ, ◌<◌, ◌≤◌, All, IfOk, length, map, pos, slice_index};
ghost use Rattle.std.specs.List.{range_with_len};
ghost use Rattle.helios_model.specs.Limits.{longest_trip};
ghost use Rattle.latency_assign.specs.Assignment.{IsAssignment, count_of, distance};
ghost use Rattle.latency_assign.specs.Search.{IsMatched};

use crate::ints::Ints;
use crate::matching::match_row;
use crate::potentials::Potentials;
use helios_model::{LONGEST_TRIP, Matrix, Places};
use std::alloc::{AllocError, Global};

#[tactic(auto, using(crate::proofs::Results::one_number_more))]
fn first_numbers(alloc: Global, count: u8) -> Result<Vec<u8>, AllocError>
    ensures { IfOk result (λ v. v.items ≡ range_with_len 0 count) }
{
    let mut numbers = Vec::with_capacity(alloc, count as usize)?;
    for number in 0..count {
        numbers.push(number)?;
    }
    Ok(numbers)
}

// The potentials of the columns by their numbers.
fn by_number(alloc: Global, w: &[u64], s: &[u8]) -> Result<Vec<u64>, AllocError>
    requires size { length w.now ≡ length s.now }
    requires below { (q : ℕ) → q < length s.now → slice_index s.now q < length s.now }
    requires same { (p q : ℕ) → p < length s.now → q < length s.now → slice_index s.now p ≡ slice_index s.now q → slice_index w.now p ≡ slice_index w.now q }
    ensures size { IfOk result (λ v. length v.items ≡ length s.now) }
    ensures placed { IfOk result (λ v. (q : ℕ) → q < length s.now → slice_index v.items (slice_index s.now q) ≡ slice_index w.now q) }
{
    let mut v = vec![in alloc; 0; s.len()]?;
    for place in 0..s.len() {
        v[s[place] as usize] = w[place];
    }
    Ok(v)
}

fn ints(alloc: Global, numbers: &[u64]) -> Result<Ints, AllocError>
    requires { All (λ x. x ≤ longest_trip) numbers.now }
    ensures { IfOk result (λ whole. whole ≡ map pos numbers.now) }
{
    let mut whole = Vec::with_capacity(alloc, numbers.len())?;
    for number in numbers {
        whole.push(*number as i64)?;
    }
    Ok(Ints::new(whole))
}

// Potentials of the rows, those of the columns by their places, and the columns, where each row has the column at its
// place for a partner.
#[tactic(auto, using(crate::proofs::Results::all_matched))]
fn matched(alloc: Global, m: &Matrix) -> Result<(Vec<u64>, Vec<u64>, Vec<u8>), AllocError>
    ensures { IfOk result (λ found. IsMatched (count_of m.now) (distance m.now) (count_of m.now) found.0.items found.1.items found.2.items) }
{
    let count = m.count();
    let mut u = vec![in alloc; LONGEST_TRIP; count as usize]?;
    let mut w = vec![in alloc; 0u64; count as usize]?;
    let mut s = first_numbers(alloc, count)?;
    for k in 0..count as usize {
        match_row(alloc, m, k, &mut u, &mut w, &mut s)?;
    }
    Ok((u, w, s))
}

// The potentials and the partners of the sites, where each row has the column at its place for a partner.
#[tactic(auto, using(crate::proofs::Results::same_potential, crate::proofs::Results::rows_small))]
fn assignment_of(
    alloc: Global,
    m: &Matrix,
    u: &[u64],
    w: &[u64],
    s: Vec<u8>,
) -> Result<Potentials, AllocError>
    requires { IsMatched (count_of m.now) (distance m.now) (count_of m.now) u.now w.now s.items }
    ensures { IfOk result (IsAssignment m.now) }
{
    let v = by_number(alloc, w, &s)?;
    let u = ints(alloc, u)?;
    let v = ints(alloc, &v)?;
    Ok(Potentials {
        u,
        v,
        s: Places::new(s),
    })
}

/// Potentials of the sites, none under 0 or over 1,000,000,000 microseconds, and partners. The potentials of any two
/// sites reach their round trip, and those of a site and its partner are their round trip, so the round trips to the
/// partners add up to the most. Only want of memory is an error.
pub fn assign(alloc: Global, m: &Matrix) -> Result<Potentials, AllocError>
    ensures { IfOk result (IsAssignment m.now) }
{
    let (u, w, s) = matched(alloc, m)?;
    assignment_of(alloc, m, &u, &w, s)
}
