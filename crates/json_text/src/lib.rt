//! What every reader of a JSON text stands on: the value of a whole text, members of an object, lists, rows of numbers
//! and names. A reader of a part answers `Unread` where it has another form; a reader of a whole text answers a
//! `Refusal` of its own. The layer above uses that each call gives what the definition of the same name gives, unless
//! memory runs out.
#![tactic(auto)]

mod lists;
mod members;
mod names_read;
mod refusals;
mod rows;
mod spelled;
mod text;
mod transactions;

pub use lists::{ItemReader, PartReader, read_list, read_parts};
pub use members::{array_member, has_member, is_text, number_member, only, pair, text_member};
pub use names_read::read_names;
pub use refusals::{Refusal, Unread};
pub use rows::{JsonNumber, is_row, read_row, read_rows, read_square};
pub use spelled::{
    KeyReader, NameReader, NamedVersion, are_texts, id, key, named_version, stored_value, version,
};
pub use text::{a_line_feed_says_nothing, line_of, value_of};
pub use transactions::{PutReader, ReadReader, read_keyed};
