//! Tests of the crates that a node's core is made of, by their public calls: the table of times, the log that messages are
//! taken from, and the core. They stand in a crate of their own, so that those crates are not proved again with them.
#![tactic(auto)]

#[cfg(test)]
mod cores;
#[cfg(test)]
mod parts;
