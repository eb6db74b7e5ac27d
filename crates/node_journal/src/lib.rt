//! The journal of a site: payloads in a file, each durable before it counts. The layer above opens it by
//! `Journal::open`, reads its payloads by `Reading::next` and adds one by `Journal::append`.
#![tactic(auto)]

mod device;
mod fault;
mod framed;
mod gate;
mod journal;
pub mod laws;
mod next;
mod open;
mod reading;

pub use fault::JournalFault;
pub use framed::Framed;
pub use journal::Journal;
pub use reading::{Found, Reading};
