//! Replays a schedule at the sites of a cluster, each with its host over its disk of a bench, step by step.
//! The layer above uses `replay`, or a `Walk` step by step: the report is that of the world which the steps reach by the rules of the node,
//! each disk stands for its site's journal there, and a refusal is the first one of the steps.
#![tactic(auto)]

mod batches;
mod closing;
mod entries;
mod host_laws;
mod lines;
mod output;
mod refusal;
mod replaying;
mod report;
mod seats;
mod taken;
mod taking;
mod walk;

pub use refusal::ReplayRefusal;
pub use replaying::replay;
pub use report::Report;
pub use walk::Walk;
