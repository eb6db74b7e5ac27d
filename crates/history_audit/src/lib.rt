//! Histories of transactions: read, printed and audited; and the records of a site's log, printed.
//! The layer above uses that a text is read exactly as `history_of_text` says, that `audit` gives the verdict of the
//! map machine, and that what is printed of a serial history is read again as its transactions, which pass the audit.
#![tactic(auto)]

mod auditing;
mod history;
mod history_printing;
mod laws;
mod printing;
mod reading;
mod records_printing;
mod refusal;
mod verdict;

pub use auditing::audit;
pub use history::{History, Item};
pub use history_printing::print_history;
pub use laws::{each_serial_history_is_read_again, each_serial_history_passes};
pub use reading::read_history;
pub use records_printing::print_records;
pub use refusal::HistoryRefusal;
pub use verdict::AuditVerdict;
