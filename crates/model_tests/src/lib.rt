//! Tests of the data of the protocol, by its public calls.
#![tactic(auto)]

#[cfg(test)]
mod copies;
