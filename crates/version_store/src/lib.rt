//! The current version and value of each key.
#![tactic(auto)]

mod held;
mod places;
mod store;

pub use held::Held;
pub use store::Store;
