//! Tests of the readers of JSON texts, by their public calls.
#![tactic(auto)]

#[cfg(test)]
mod texts;
