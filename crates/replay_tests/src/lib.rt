//! Tests of replays, by the public calls of the crates that they are made of: walks step by step over a bench of disks, each stop of a
//! batch and of a restart, and how much a replay writes. They stand in a crate of their own, so that those crates are not proved again
//! with them.
#![tactic(auto)]

#[cfg(test)]
mod reports;
#[cfg(test)]
mod schedules;
#[cfg(test)]
mod stops;
#[cfg(test)]
mod volumes;
#[cfg(test)]
mod walks;
