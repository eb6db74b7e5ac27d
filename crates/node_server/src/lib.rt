//! A node's side of a connection: the frames in the bytes that a client sends, whatever the pieces in which they come.
#![tactic(auto)]

mod arrival;
mod frame_buffer;
mod next;
mod room;

pub use frame_buffer::FrameBuffer;
pub use next::Next;
