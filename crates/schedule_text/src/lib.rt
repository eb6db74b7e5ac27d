//! Schedules: what a cluster is to be taken through, step by step, and the exact reader of a schedule's text.
//! The layer above uses `read_schedule`: it gives what `schedule_of_text` gives, the schedule that the text says or
//! the first rule that it breaks, and each step of a schedule is one that the plan can have.
#![tactic(auto)]

mod input_reading;
mod planned;
mod reading;
mod refusal;
mod step_reading;
mod steps;

pub use planned::{Planned, PlannedInputs, PlannedRead, PlannedReads, PlannedVersion};
pub use reading::read_schedule;
pub use refusal::ScheduleRefusal;
pub use steps::{Schedule, Step, StepList};
