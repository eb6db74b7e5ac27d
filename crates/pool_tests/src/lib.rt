//! Tests of the versions, of the unfinished transactions and of the log that a site keeps, by their public calls alone.
#![tactic(auto)]

#[cfg(test)]
mod exchange;
#[cfg(test)]
mod pools;
#[cfg(test)]
mod versions;
