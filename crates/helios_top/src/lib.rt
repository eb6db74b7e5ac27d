//! The top call: `run` does all that the program does, from the words of a command line and the
//! bytes of an input to one text or one line and an exit status. A replay runs over a bench of disks, and a
//! dump reads the journal on a disk.
//! What a run does is the page specs/IsRun; what each command does has a page in specs/Runs.
#![tactic(auto)]

mod audit;
mod check;
mod dump;
mod ending;
mod journal;
mod plan;
mod replay;
mod top;
mod trial;
mod weigh;
mod words;

pub use ending::{Ending, Refusal, Status};
pub use journal::JournalRefusal;
pub use replay::Told;
pub use top::run;
pub use words::Command;

/// Bytes that a command reads at most.
pub const INPUT_LIMIT: usize = 16_777_216;
