//! What journals and messages spell, at the front of a body.
ghost use Rattle.std.specs.Prelude.{◌≡◌, ◌++◌, IfOk};
ghost use Rattle.log_records.specs.Entries.{ask_at};
ghost use Rattle.log_records.specs.Messages.{message_at};
ghost use Rattle.link_codec.specs.Asked.{ask_front, asked};
ghost use Rattle.link_codec.specs.Decoding.{TakesFront};

use crate::faults::LinkFault;
use helios_model::{Ask, Input, MOST_SITES, Message};
use log_records::{
    decode_entry, decode_message, entries_are_read_again, messages_are_read_again,
    what_is_read_is_a_message, what_is_read_is_an_entry,
};
use std::alloc::{AllocError, Global};

/// What an entry of a journal has in front of what is asked for: a reading, here 0, and the byte of its kind.
pub(crate) const ASK_FRONT: [u8; 9] = [0, 0, 0, 0, 0, 0, 0, 0, 1];

/// The entry of a journal in which a body asks.
fn as_entry(alloc: Global, body: &[u8]) -> Result<Vec<u8>, AllocError>
    ensures { IfOk result (λ bytes. bytes.items ≡ ask_front ++ body.now) }
{
    let mut bytes = Vec::with_capacity(alloc, ASK_FRONT.len() + body.len())?;
    bytes.extend_from_slice(&ASK_FRONT)?;
    bytes.extend_from_slice(body)?;
    Ok(bytes)
}

/// What an input asks for.
fn asked(input: Input) -> Option<Ask>
    ensures { result ≡ asked input }
{
    match input {
        Input::Request(ask) => Some(ask),
        Input::Get(_) | Input::Status(_) | Input::Pull(_) | Input::Push(_) => None,
    }
}

/// What a client asks for, which is read as the entry of a journal.
pub(crate) fn front_ask(alloc: Global, body: &[u8]) -> Result<(Ask, usize), LinkFault>
    ensures { TakesFront result (ask_at 0 body.now) body.now }
{
    entries_are_read_again();
    what_is_read_is_an_entry();
    let bytes = as_entry(alloc, body)?;
    let (entry, length) = decode_entry(alloc, bytes.as_slice(), MOST_SITES)?;
    match asked(entry.input) {
        None => Err(LinkFault::Bad),
        Some(ask) => Ok((ask, length - ASK_FRONT.len())),
    }
}

/// A message, whose digest is that of its body.
pub(crate) fn front_message(alloc: Global, body: &[u8]) -> Result<(Message, usize), LinkFault>
    ensures { TakesFront result (message_at 0 body.now) body.now }
{
    messages_are_read_again();
    what_is_read_is_a_message();
    let (message, length) = decode_message(alloc, body)?;
    Ok((message, length))
}
