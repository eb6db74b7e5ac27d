//! Partners for the sites of a matrix whose round trips add up to the most, with potentials that prove it.
//! The layer above uses `assign`: potentials that reach each round trip, and are the round trip of a site and its partner.
#![tactic(auto)]

mod assignment;
pub mod ints;
mod lacks;
mod matching;
pub mod potentials;
mod shifts;

pub use assignment::assign;
