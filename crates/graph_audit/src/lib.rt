//! Whether the committed transactions that the dumps of sites name have a serial order.
#![tactic(auto)]

mod dumps;
mod gathering;
mod reading;
mod records;
mod refusal;

pub use dumps::{Dumps, Prepares};
pub use reading::read_dumps;
pub use refusal::DumpsRefusal;
