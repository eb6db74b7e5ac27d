//! Tests of the program as a whole, by the public calls of the crates that it is made of: `run` over sources and sinks in
//! memory, with schedules of several sites. They stand in a crate of their own, so that those crates are not proved again with them.
#![tactic(auto)]

#[cfg(test)]
mod benches;
#[cfg(test)]
mod histories;
#[cfg(test)]
mod inputs;
#[cfg(test)]
mod limits;
#[cfg(test)]
mod replays;
#[cfg(test)]
mod runs;
#[cfg(test)]
mod sizes;
#[cfg(test)]
mod weights;
