//! Sample schedules, each from a number: what `trial` takes a cluster through.
//! The layer above uses `make_schedule`: it gives the schedule that the definition says, which a replay can take.
#![tactic(auto)]

mod draws;
mod generator;
mod making;
mod parts;
mod planning;

pub use draws::Draws;
pub use generator::Generator;
pub use making::make_schedule;
