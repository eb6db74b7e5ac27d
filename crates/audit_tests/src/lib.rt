//! Tests of the reader, the audit and the texts of histories and records, by their public calls alone.
#![tactic(auto)]

#[cfg(test)]
mod audits;
#[cfg(test)]
mod printed;
#[cfg(test)]
mod texts;
