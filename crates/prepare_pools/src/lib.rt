//! The unfinished transactions of a site, in the order in which they arrived.
#![tactic(auto)]

mod conflicts;
mod gathering;
mod index;
mod line;
mod pools;
mod site;
mod touch;

pub use pools::Pools;
pub use touch::Touch;
