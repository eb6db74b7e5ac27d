//! The core of a site's node: it follows the rules step by step, and keeps of its log what later steps look up.
#![tactic(auto)]

mod answers;
mod requests;
mod rules;

pub use rules::{Core, Outcome, Redone, Summary};
