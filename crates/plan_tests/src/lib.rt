//! Tests of the crates that read, plan, judge and print, by their public calls.
#![tactic(auto)]

#[cfg(test)]
use std::alloc::{AllocError, Global};
#[cfg(test)]
use std::fmt::Display;

#[cfg(test)]
mod matrix_texts;
#[cfg(test)]
mod plan_texts;
#[cfg(test)]
mod planning;

/// What is printed of a reading: this word where it gave something, else its refusal.
#[cfg(test)]
pub(crate) fn line_of<T: Drop, E: Display + Drop>(
    alloc: Global,
    word: &str,
    read: Result<T, E>,
) -> Result<String, AllocError> {
    match read {
        Ok(_) => String::from_str(alloc, word),
        Err(refusal) => format!(in alloc; "{refusal}"),
    }
}
