//! The tests of the binary spellings, through their public calls alone.
#![tactic(auto)]

#[cfg(test)]
mod entries;
#[cfg(test)]
mod messages;
#[cfg(test)]
mod records;
