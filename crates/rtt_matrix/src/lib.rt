//! Reads a matrix: the sites by name and the round trips between them.
//! The layer above uses that a text is read exactly as `matrix_of_text` says: its matrix, or the first rule that it breaks.
#![tactic(auto)]

mod checks;
mod reading;
mod refusal;
mod rows;

pub use reading::read_matrix;
pub use refusal::MatrixRefusal;
