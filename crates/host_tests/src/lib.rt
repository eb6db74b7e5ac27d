//! Tests of a node over its journal, by the public calls of the crates that it is made of: over disks in memory. They stand in a crate
//! of their own, so that those crates are not proved again with them.
#![tactic(auto)]

#[cfg(test)]
mod batches;
#[cfg(test)]
mod hosts;
#[cfg(test)]
mod openings;
