//! The outside of the program as traits: where bytes come from and where they go, connections, and the time, with what a
//! failure leaves. The layer above reads with `read_whole` and writes with `write_whole`.
#![tactic(auto)]

mod address;
mod connection;
mod failed;
mod failing_calls;
mod fault_count;
mod line;
mod list_clock;
mod memory_net;
mod memory_sink;
mod memory_source;
mod peers;
mod quiet;
mod sockets;
mod system;
mod system_clock;
mod traits;
mod unread;
mod whole;

pub use address::MOST_ADDRESS_BYTES;
pub use connection::Connection;
pub use failed::Failed;
pub use fault_count::FaultCount;
pub use list_clock::ListClock;
pub use memory_net::MemNet;
pub use memory_sink::MemSink;
pub use memory_source::MemSource;
pub use quiet::{NullSink, QuietSource};
pub use sockets::TcpNet;
pub use system::{StdSink, StdSource};
pub use system_clock::SystemClock;
pub use traits::{Clock, Net, Sink, Source};
pub use whole::{InputError, read_whole, write_whole};
