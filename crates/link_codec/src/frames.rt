//! Frames: the one spelling of each, and their reader.
ghost use Rattle.std.specs.Prelude.{◌≡◌, ◌<◌, ◌≤◌, ◌^◌, ◌++◌, ◌∷◌, IfOk, length};
ghost use Rattle.std.specs.Int.{w32, to_be_bytes};
ghost use Rattle.helios_model.specs.Spellable.{IsSpellableMessage};
ghost use Rattle.log_records.specs.Entries.{ask_bytes};
ghost use Rattle.log_records.specs.Ids.{id_bytes};
ghost use Rattle.log_records.specs.Keys.{key_bytes};
ghost use Rattle.log_records.specs.Messages.{message_bytes};
ghost use Rattle.link_codec.specs.Decoding.{GivesBody};
ghost use Rattle.link_codec.specs.Frames.{DecodesFrame, IsSpellableFrame, frame_body, frame_bytes, frame_kind};
ghost use Rattle.link_codec.specs.Framing.{framed};

use crate::decoder::Decoder;
use crate::faults::LinkFault;
use crate::framing::{FRONT, put_front, split};
use crate::fronts::ASK_FRONT;
use crate::writing::{ID, key_length, put_id, put_key};
use helios_model::{Ask, Bytes, Entry, Input, Key, Message, SiteId, TxnId};
use log_records::{
    encode_entry, encode_message, entries_are_read_again, message_length, messages_are_read_again,
    what_is_read_is_a_message, what_is_read_is_an_entry,
};
use std::alloc::{AllocError, Global};

/// What a client sends.
#[derive(Clone, Debug, Drop)]
pub enum Frame {
    /// The first frame: the fingerprint of the plan.
    Hello([u8; 32]),
    /// Asks for the current version and value of a key.
    Get(Key),
    /// Asks what is known of a transaction.
    Status(TxnId),
    /// Asks to take a transaction.
    Request(Ask),
    /// Asks for a message to another site.
    Pull(SiteId),
    /// Brings a message of another site.
    Push(Message),
    /// Asks for the answers to what was sent before.
    Flush,
}

/// The kinds of frames, from 1.
const KINDS: u8 = 7;

/// The longest body, in bytes: that of a Push with the longest message.
const MOST_BODY: u32 = 1_213_476;

/// The frame that a whole body of a kind from 1 to 7 is.
fn frame_of(alloc: Global, kind: u8, body: &[u8]) -> Result<Frame, LinkFault>
    requires some { 1 ≤ kind }
    requires few { kind ≤ 7 }
    ensures { GivesBody frame_kind frame_body IsSpellableFrame kind body.now result }
{
    entries_are_read_again();
    messages_are_read_again();
    what_is_read_is_an_entry();
    what_is_read_is_a_message();
    let mut decoder = Decoder::new(body);
    let frame = decoder.frame(alloc, kind)?;
    if !decoder.is_done() {
        return Err(LinkFault::Bad);
    }
    Ok(frame)
}

/// The frame that begins the input, and the length of its spelling in bytes: at most 1,213,481. `Cut` where the input ends within
/// a frame; `Bad` where no frame begins so, whatever follows.
pub fn decode_frame(alloc: Global, input: &[u8]) -> Result<(Frame, usize), LinkFault>
    ensures { DecodesFrame input.now result }
{
    let (kind, body) = split(input, KINDS, MOST_BODY)?;
    let frame = frame_of(alloc, kind, body)?;
    Ok((frame, FRONT + body.len()))
}

/// A buffer with room for a whole frame, which has the kind and the length of the body.
fn begun(alloc: Global, kind: u8, length: u32) -> Result<Vec<u8>, AllocError>
    ensures { IfOk result (λ out. out.items ≡ kind ∷ to_be_bytes w32 length) }
{
    let mut out = Vec::with_capacity(alloc, FRONT + length as usize)?;
    put_front(&mut out, kind, length)?;
    Ok(out)
}

/// A frame of a kind with this body.
fn framed(alloc: Global, kind: u8, body: &[u8]) -> Result<Vec<u8>, AllocError>
    requires { length body.now < 2 ^ 32 }
    ensures { IfOk result (λ out. out.items ≡ framed kind body.now) }
{
    let mut out = begun(alloc, kind, body.len() as u32)?;
    out.extend_from_slice(body)?;
    Ok(out)
}

fn framed_key(alloc: Global, key: &Key) -> Result<Vec<u8>, AllocError>
    ensures { IfOk result (λ out. out.items ≡ framed 2 (key_bytes key.now)) }
{
    let mut out = begun(alloc, 2, key_length(key) as u32)?;
    put_key(&mut out, key)?;
    Ok(out)
}

fn framed_id(alloc: Global, id: TxnId) -> Result<Vec<u8>, AllocError>
    ensures { IfOk result (λ out. out.items ≡ framed 3 (id_bytes id)) }
{
    let mut out = begun(alloc, 3, ID as u32)?;
    put_id(&mut out, id)?;
    Ok(out)
}

/// What is asked for is spelled as in the entry of a journal.
fn framed_ask(alloc: Global, ask: &Ask) -> Result<Vec<u8>, AllocError>
    ensures { IfOk result (λ out. out.items ≡ framed 4 (ask_bytes ask.now)) }
{
    let entry = Entry {
        reading: 0,
        input: Input::Request(ask.copy()?),
    };
    let bytes = encode_entry(alloc, &entry)?;
    framed(alloc, 4, bytes.items().split_at(ASK_FRONT.len()).1)
}

fn framed_message(alloc: Global, m: &Message) -> Result<Vec<u8>, AllocError>
    requires { IsSpellableMessage m.now }
    ensures { IfOk result (λ out. out.items ≡ framed 6 (message_bytes m.now)) }
{
    let message = encode_message(alloc, m)?;
    let mut out = begun(alloc, 6, message_length(m) as u32)?;
    out.extend_from_slice(message.items())?;
    Ok(out)
}

/// The one spelling of a frame.
pub fn encode_frame(alloc: Global, f: &Frame) -> Result<Bytes, AllocError>
    requires { IsSpellableFrame f.now }
    ensures { IfOk result (λ bytes. bytes ≡ frame_bytes f.now) }
{
    let out = match f {
        Frame::Hello(fingerprint) => framed(alloc, 1, fingerprint)?,
        Frame::Get(key) => framed_key(alloc, key)?,
        Frame::Status(id) => framed_id(alloc, *id)?,
        Frame::Request(ask) => framed_ask(alloc, ask)?,
        Frame::Pull(to) => framed(alloc, 5, &[to.number()])?,
        Frame::Push(m) => framed_message(alloc, m)?,
        Frame::Flush => begun(alloc, 7, 0)?,
    };
    Ok(Bytes::new(out))
}
