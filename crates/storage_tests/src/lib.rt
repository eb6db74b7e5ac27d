//! Tests of disks and journals, by their public calls.
#![tactic(auto)]

#[cfg(test)]
mod disks;
#[cfg(test)]
mod journals;
