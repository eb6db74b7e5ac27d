//! Offsets of a plan, the text of a plan with its certificate, and its fingerprint.
//! The layer above uses that a text is read exactly as `plan_of_text` says: its plan and certificate, or the first rule that it breaks.
#![tactic(auto)]

mod data;
mod fields;
mod fingerprints;
mod offsets;
mod printing;
mod reading;
mod refusal;
mod values;

pub use fingerprints::fingerprint;
pub use offsets::offset;
pub use printing::print_plan;
pub use reading::{plan_from_value, read_plan};
pub use refusal::{FieldName, PlanRefusal};
