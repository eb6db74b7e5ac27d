//! The frames that a client sends and the answers of a node, each with its one spelling in bytes, and their readers, which say
//! whether an input is cut off or begins with nothing.
#![tactic(auto)]

mod answers;
mod bodies;
mod decoder;
mod faults;
mod frames;
mod framing;
mod fronts;
mod laws;
mod replies;
mod writing;

pub use answers::{Answer, append_answer, decode_answer, encode_answer};
pub use faults::LinkFault;
pub use frames::{Frame, decode_frame, encode_frame};
pub use laws::{
    no_spelling_is_longer, one_spelling_begins_an_input, what_begins_with_a_spelling_is_whole,
    what_is_bad_stays_bad, what_is_cut_is_not_bad, what_is_cut_is_short,
    what_was_written_is_read_again,
};
