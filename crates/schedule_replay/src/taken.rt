//! What a step of a replay leaves of its site.
use helios_model::Commits;
use node_host::Host;

/// A site behind a step.
#[derive(Drop)]
pub(crate) struct Taken {
    pub(crate) host: Host,
    /// The commits of the step, or those of the last batch before it.
    pub(crate) commits: Commits,
    /// Whether they are the step's.
    pub(crate) are_new: bool,
}
