//! What a site keeps of its log: the unfinished transactions, the current version and value of each key, how its own
//! transactions ended, and the records that some site may still need.
#![tactic(auto)]

mod arrivals;
mod endings;
mod ledger;

pub use arrivals::Taking;
pub use ledger::Ledger;
