//! Answers: the one spelling of each, and their reader.
ghost use Rattle.std.specs.Prelude.{◌≡◌, ◌≤◌, ◌++◌, IfOk, OnOk, length};
ghost use Rattle.link_codec.specs.Answers.{DecodesAnswer, IsSpellableAnswer, answer_body, answer_bytes, answer_kind};
ghost use Rattle.link_codec.specs.Decoding.{GivesBody};

use crate::decoder::Decoder;
use crate::faults::LinkFault;
use crate::framing::{FRONT, put_front, split};
use crate::replies::{put_reply, reply_length};
use helios_model::{Bytes, Reply, SiteId};
use log_records::{messages_are_read_again, what_is_read_is_a_message};
use std::alloc::{AllocError, Global};

/// What a node sends.
#[derive(Clone, Debug, Drop)]
pub enum Answer {
    /// To the first frame: the node's site.
    Welcome(SiteId),
    /// To an input.
    Reply(Reply),
    /// Why the session ends: a code from 1 to 7.
    Refuse(u8),
}

/// The kinds of answers, from 1.
const KINDS: u8 = 3;

/// The longest body, in bytes: that of a reply with the longest message.
const MOST_BODY: u32 = 1_213_477;

/// The answer that a whole body of a kind from 1 to 3 is.
fn answer_of(alloc: Global, kind: u8, body: &[u8]) -> Result<Answer, LinkFault>
    requires some { 1 ≤ kind }
    requires few { kind ≤ 3 }
    ensures { GivesBody answer_kind answer_body IsSpellableAnswer kind body.now result }
{
    messages_are_read_again();
    what_is_read_is_a_message();
    let mut decoder = Decoder::new(body);
    let answer = decoder.answer(alloc, kind)?;
    if !decoder.is_done() {
        return Err(LinkFault::Bad);
    }
    Ok(answer)
}

/// The answer that begins the input, and the length of its spelling in bytes: at most 1,213,482. `Cut` where the input ends within
/// an answer; `Bad` where no answer begins so, whatever follows.
pub fn decode_answer(alloc: Global, input: &[u8]) -> Result<(Answer, usize), LinkFault>
    ensures { DecodesAnswer input.now result }
{
    let (kind, body) = split(input, KINDS, MOST_BODY)?;
    let answer = answer_of(alloc, kind, body)?;
    Ok((answer, FRONT + body.len()))
}

/// How many bytes the body of an answer has.
fn body_length(a: &Answer) -> usize
    requires { IsSpellableAnswer a.now }
    ensures value { result ≡ length (answer_body a.now) }
    ensures most { result ≤ 1213477 }
{
    match a {
        Answer::Welcome(_) | Answer::Refuse(_) => 1,
        Answer::Reply(reply) => reply_length(reply),
    }
}

/// An answer with a body of so many bytes, behind what the buffer has.
fn put_answer(alloc: Global, out: &mut Vec<u8>, a: &Answer, size: usize) -> Result<(), AllocError>
    requires spellable { IsSpellableAnswer a.now }
    requires size { size ≡ length (answer_body a.now) }
    requires most { size ≤ 1213477 }
    ensures { OnOk result (out.new.items ≡ out.old.items ++ answer_bytes a.now) }
{
    match a {
        Answer::Welcome(site) => {
            put_front(out, 1, size as u32)?;
            out.push(site.number())?;
        }
        Answer::Reply(reply) => {
            put_front(out, 2, size as u32)?;
            put_reply(alloc, out, reply)?;
        }
        Answer::Refuse(code) => {
            put_front(out, 3, size as u32)?;
            out.push(*code)?;
        }
    }
    Ok(())
}

/// Writes the one spelling of an answer behind what a buffer has, which after want of memory may have a front of it there.
pub fn append_answer(alloc: Global, out: &mut Vec<u8>, a: &Answer) -> Result<(), AllocError>
    requires { IsSpellableAnswer a.now }
    ensures { OnOk result (out.new.items ≡ out.old.items ++ answer_bytes a.now) }
{
    let size = body_length(a);
    put_answer(alloc, out, a, size)
}

/// The one spelling of an answer.
pub fn encode_answer(alloc: Global, a: &Answer) -> Result<Bytes, AllocError>
    requires { IsSpellableAnswer a.now }
    ensures { IfOk result (λ bytes. bytes ≡ answer_bytes a.now) }
{
    let size = body_length(a);
    let mut out = Vec::with_capacity(alloc, FRONT + size)?;
    put_answer(alloc, &mut out, a, size)?;
    Ok(Bytes::new(out))
}
