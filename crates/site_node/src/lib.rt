//! A site's node as its parts, and the steps by which they follow the rules: its clock, what commits, and messages.
#![tactic(auto)]

mod messages;
mod node;
mod settling;

pub use node::SiteNode;
