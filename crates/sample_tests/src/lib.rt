//! Tests of sample schedules, against the texts of schedules that another generator made.
#![tactic(auto)]

#[cfg(test)]
mod schedules;
