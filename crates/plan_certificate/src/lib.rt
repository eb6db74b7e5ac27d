//! Plans a matrix of round trips, and judges a plan: the first pair of sites that it leaves short, and whether its
//! certificate proves it optimal. The layer above uses `plan_of`, whose plan no other over the same round trips beats,
//! and `check`, whose verdict is exact.
#![tactic(auto)]

mod judge;
mod pairing;
mod planning;
mod verdict;

pub use judge::check;
pub use planning::plan_of;
pub use verdict::Verdict;
