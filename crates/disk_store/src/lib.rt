//! Disks that may crash at any moment: the trait `Disk`, whose contract says what a read gives and
//! which images a crash may leave, two forms in memory, and the adapter over a file.
#![tactic(auto)]

mod bench;
mod cells;
mod fate;
mod file;
mod history;
mod memory;
mod places;
mod record;
mod traits;
mod window;

pub use bench::Bench;
pub use fate::{Keep, Script, Stop};
pub use file::FileDisk;
pub use memory::MemDisk;
pub use record::RecordDisk;
pub use traits::Disk;
