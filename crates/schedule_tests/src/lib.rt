//! Tests of the reader of schedules, by its public calls. They stand apart from those of plans, so that no crate is long to prove.
#![tactic(auto)]

#[cfg(test)]
mod texts;
