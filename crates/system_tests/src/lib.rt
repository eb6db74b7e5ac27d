//! Tests of what meets the outside: streams, files and clocks, by their public calls, over memory, over the real system and over
//! systems that are made up.
#![tactic(auto)]

#[cfg(test)]
mod clocks;
#[cfg(test)]
mod file_system;
#[cfg(test)]
mod files;
#[cfg(test)]
mod process;
#[cfg(test)]
mod streams;
