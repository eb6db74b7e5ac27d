//! What a replay tells.
use helios_model::{Bytes, Commits};

/// What a replay tells.
#[derive(Debug, Drop)]
pub struct Report {
    /// The lines of the report.
    pub text: Bytes,
    /// The commits of all sites, in the order of their events.
    pub commits: Commits,
    /// How many answers refused a request by an overwritten read or a conflict.
    pub refusals: u64,
}
