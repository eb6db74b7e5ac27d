//! A node over its journal. The layer above uses `Host`: `Host::open` reads a site's journal, or makes its head, and the host then stands for
//! the batches that the journal holds; `Host::batch` seals a batch in the journal and answers it. At every moment each image of the disk
//! holds the batches before or after.
#![tactic(auto)]

mod answering;
mod batch;
mod fault;
mod fresh;
mod heading;
mod host;
mod kept;
mod laws;
mod open;
mod opening;
mod recovery;
mod redoing;

pub use batch::frame_length;
pub use fault::HostFault;
pub use host::{Batched, Host, Opened};
pub use kept::kept_records;
pub use laws::{
    a_host_stands_at_its_end, a_stopped_batch, an_own_journal_is_opened, batches_are_pushed,
    commits_are_joined, journaled_entries_suffice, one_end, one_holding, one_log,
    what_a_head_keeps, what_is_recovered_goes_on, what_is_recovered_is_the_node,
};
