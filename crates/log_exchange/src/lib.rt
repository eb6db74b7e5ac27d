//! The records of a site's log that other sites are told, and which of them a message tells.
#![tactic(auto)]

mod backlog;
mod exchange;
mod laws;
mod run;
mod selection;

pub use exchange::ExchangeLog;
pub use laws::{fewer_are_needed, needed_appends, needed_records_tell_all};
