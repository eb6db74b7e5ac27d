//! The one spelling in bytes of each record, message, entry, batch and head, and its reader, which names the first fault of an input.
#![tactic(auto)]

mod asking;
mod decoder;
mod decoding;
mod encoding;
mod entries;
mod faults;
mod given;
mod heads;
mod latest;
mod laws;
mod lengths;
mod messages;
mod route;

pub use decoding::decode_record;
pub use encoding::encode_record;
pub use entries::{
    decode_batch, decode_entry, encode_batch, encode_entry, encode_journaled, journaled_count,
    journaled_length,
};
pub use faults::DecodeFault;
pub use heads::{Head, decode_head, encode_head};
pub use laws::{
    batches_are_read_again, batches_can_be_written, entries_are_read_again, entries_can_be_written,
    heads_are_read_again, messages_are_read_again, no_batch_begins_another, no_batch_is_longer,
    no_entry_begins_another, no_head_begins_another, no_spelling_begins_another,
    records_are_read_again, what_is_read_has_a_spelling, what_is_read_is_a_batch,
    what_is_read_is_a_head, what_is_read_is_a_message, what_is_read_is_an_entry,
};
pub use lengths::message_length;
pub use messages::{decode_message, encode_message};
