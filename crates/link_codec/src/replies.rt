//! Replies and answers: what their bodies have, taken from left to right, and how they are written.
ghost use Rattle.std.specs.Prelude.{◌≡◌, ◌++◌, ◌∷◌, ◌≤◌, length, OnOk};
ghost use Rattle.helios_model.specs.Spellable.{IsSpellableMessage, IsSpellableReply};
ghost use Rattle.log_records.specs.Ids.{id_bytes};
ghost use Rattle.log_records.specs.Messages.{message_bytes};
ghost use Rattle.link_codec.specs.AnswerReading.{aborted_at, answer_at, committed_at, conflict_at, known_at, overwritten_at, prepared_at, refuse_at, reply_at, reply_behind, sent_at, state_at, state_behind, stored_at, told_at, welcome_at};
ghost use Rattle.link_codec.specs.Answers.{reply_bytes, state_bytes};
ghost use Rattle.link_codec.specs.Decoding.{Takes};

use crate::answers::Answer;
use crate::decoder::Decoder;
use crate::faults::LinkFault;
use crate::writing::{
    ID, key_length, put_id, put_key, put_value, put_version, value_length, version_length,
};
use helios_model::{Message, Reply, State, TxnId};
use log_records::{encode_message, message_length};
use std::alloc::{AllocError, Global};

impl Decoder<'_> {
    #[tactic(auto, unfolding(crate::specs::AnswerReading::prepared_at), using(crate::proofs::Steps::refused_then))]
    fn prepared(&mut self) -> Result<Reply, LinkFault>
        ensures { Takes result (prepared_at self.old.rest.now) self.new.rest.now }
    {
        let id = self.id()?;
        Ok(Reply::Prepared(id))
    }

    #[tactic(auto, unfolding(crate::specs::AnswerReading::committed_at), using(crate::proofs::Steps::refused_then))]
    fn committed(&mut self) -> Result<Reply, LinkFault>
        ensures { Takes result (committed_at self.old.rest.now) self.new.rest.now }
    {
        let id = self.id()?;
        Ok(Reply::Committed(id))
    }

    #[tactic(auto, unfolding(crate::specs::AnswerReading::overwritten_at), using(crate::proofs::Steps::refused_then))]
    fn overwritten(&mut self, alloc: Global) -> Result<Reply, LinkFault>
        ensures { Takes result (overwritten_at self.old.rest.now) self.new.rest.now }
    {
        let key = self.key(alloc)?;
        let current = self.version()?;
        Ok(Reply::Overwritten { key, current })
    }

    #[tactic(auto, unfolding(crate::specs::AnswerReading::conflict_at), using(crate::proofs::Steps::refused_then))]
    fn conflict(&mut self) -> Result<Reply, LinkFault>
        ensures { Takes result (conflict_at self.old.rest.now) self.new.rest.now }
    {
        let id = self.id()?;
        Ok(Reply::Conflict(id))
    }

    #[tactic(auto, unfolding(crate::specs::AnswerReading::stored_at), using(crate::proofs::Steps::refused_then))]
    fn stored(&mut self, alloc: Global) -> Result<Reply, LinkFault>
        ensures { Takes result (stored_at self.old.rest.now) self.new.rest.now }
    {
        let version = self.version()?;
        let value = self.value(alloc)?;
        Ok(Reply::Value { version, value })
    }

    #[tactic(auto, unfolding(crate::specs::AnswerReading::aborted_at), using(crate::proofs::Steps::refused_then))]
    fn aborted(&mut self) -> Result<State, LinkFault>
        ensures { Takes result (aborted_at self.old.rest.now) self.new.rest.now }
    {
        let cause = self.id()?;
        Ok(State::Aborted(cause))
    }

    /// What a state of a kind from 0 to 3 names.
    #[tactic(auto, unfolding(crate::specs::AnswerReading::state_behind))]
    fn state_of(&mut self, kind: u8) -> Result<State, LinkFault>
        ensures { Takes result (state_behind kind self.old.rest.now) self.new.rest.now }
    {
        match kind {
            0 => Ok(State::Pending),
            1 => Ok(State::Committed),
            2 => self.aborted(),
            _ => Ok(State::Unknown),
        }
    }

    #[tactic(auto, unfolding(crate::specs::AnswerReading::state_at), using(crate::proofs::Steps::refused_then))]
    fn state(&mut self) -> Result<State, LinkFault>
        ensures { Takes result (state_at self.old.rest.now) self.new.rest.now }
    {
        let kind = self.byte(0, 3)?;
        self.state_of(kind)
    }

    #[tactic(auto, unfolding(crate::specs::AnswerReading::known_at), using(crate::proofs::Steps::refused_then))]
    fn known(&mut self) -> Result<Reply, LinkFault>
        ensures { Takes result (known_at self.old.rest.now) self.new.rest.now }
    {
        let state = self.state()?;
        Ok(Reply::State(state))
    }

    #[tactic(auto, unfolding(crate::specs::AnswerReading::sent_at), using(crate::proofs::Steps::refused_then))]
    fn sent(&mut self, alloc: Global) -> Result<Reply, LinkFault>
        ensures { Takes result (sent_at self.old.rest.now) self.new.rest.now }
    {
        let message = self.message(alloc)?;
        Ok(Reply::Sent(message))
    }

    /// What a reply of a kind from 1 to 10 names.
    #[tactic(auto, unfolding(crate::specs::AnswerReading::reply_behind))]
    fn reply_of(&mut self, alloc: Global, kind: u8) -> Result<Reply, LinkFault>
        ensures { Takes result (reply_behind kind self.old.rest.now) self.new.rest.now }
    {
        match kind {
            1 => self.prepared(),
            2 => self.committed(),
            3 => self.overwritten(alloc),
            4 => self.conflict(),
            5 => self.stored(alloc),
            6 => self.known(),
            7 => self.sent(alloc),
            8 => Ok(Reply::Taken),
            9 => Ok(Reply::ClockSpent),
            _ => Ok(Reply::PoolFull),
        }
    }

    #[tactic(auto, unfolding(crate::specs::AnswerReading::reply_at), using(crate::proofs::Steps::refused_then))]
    fn reply(&mut self, alloc: Global) -> Result<Reply, LinkFault>
        ensures { Takes result (reply_at self.old.rest.now) self.new.rest.now }
    {
        let kind = self.byte(1, 10)?;
        self.reply_of(alloc, kind)
    }

    #[tactic(auto, unfolding(crate::specs::AnswerReading::welcome_at), using(crate::proofs::Steps::refused_then))]
    fn welcome(&mut self) -> Result<Answer, LinkFault>
        ensures { Takes result (welcome_at self.old.rest.now) self.new.rest.now }
    {
        let site = self.site()?;
        Ok(Answer::Welcome(site))
    }

    #[tactic(auto, unfolding(crate::specs::AnswerReading::told_at), using(crate::proofs::Steps::refused_then))]
    fn told(&mut self, alloc: Global) -> Result<Answer, LinkFault>
        ensures { Takes result (told_at self.old.rest.now) self.new.rest.now }
    {
        let reply = self.reply(alloc)?;
        Ok(Answer::Reply(reply))
    }

    #[tactic(auto, unfolding(crate::specs::AnswerReading::refuse_at), using(crate::proofs::Steps::refused_then))]
    fn refuse(&mut self) -> Result<Answer, LinkFault>
        ensures { Takes result (refuse_at self.old.rest.now) self.new.rest.now }
    {
        let code = self.byte(1, 7)?;
        Ok(Answer::Refuse(code))
    }

    /// What an answer of a kind from 1 to 3 has.
    #[tactic(auto, unfolding(crate::specs::AnswerReading::answer_at))]
    pub(crate) fn answer(&mut self, alloc: Global, kind: u8) -> Result<Answer, LinkFault>
        ensures { Takes result (answer_at kind self.old.rest.now) self.new.rest.now }
    {
        match kind {
            1 => self.welcome(),
            2 => self.told(alloc),
            _ => self.refuse(),
        }
    }
}

fn put_state(out: &mut Vec<u8>, state: State) -> Result<(), AllocError>
    ensures { OnOk result (out.new.items ≡ out.old.items ++ state_bytes state) }
{
    match state {
        State::Pending => out.push(0)?,
        State::Committed => out.push(1)?,
        State::Aborted(cause) => {
            out.push(2)?;
            put_id(out, cause)?;
        }
        State::Unknown => out.push(3)?,
    }
    Ok(())
}

fn put_message(alloc: Global, out: &mut Vec<u8>, m: &Message) -> Result<(), AllocError>
    requires { IsSpellableMessage m.now }
    ensures { OnOk result (out.new.items ≡ out.old.items ++ message_bytes m.now) }
{
    let message = encode_message(alloc, m)?;
    out.extend_from_slice(message.items())
}

/// A kind of reply and what names a transaction.
fn put_named(out: &mut Vec<u8>, kind: u8, id: TxnId) -> Result<(), AllocError>
    ensures { OnOk result (out.new.items ≡ out.old.items ++ kind ∷ id_bytes id) }
{
    out.push(kind)?;
    put_id(out, id)
}

/// A reply behind what the buffer has.
pub(crate) fn put_reply(alloc: Global, out: &mut Vec<u8>, reply: &Reply) -> Result<(), AllocError>
    requires { IsSpellableReply reply.now }
    ensures { OnOk result (out.new.items ≡ out.old.items ++ reply_bytes reply.now) }
{
    match reply {
        Reply::Prepared(id) => put_named(out, 1, *id),
        Reply::Committed(id) => put_named(out, 2, *id),
        Reply::Overwritten { key, current } => {
            out.push(3)?;
            put_key(out, key)?;
            put_version(out, *current)
        }
        Reply::Conflict(id) => put_named(out, 4, *id),
        Reply::Value { version, value } => {
            out.push(5)?;
            put_version(out, *version)?;
            put_value(out, value)
        }
        Reply::State(state) => {
            out.push(6)?;
            put_state(out, *state)
        }
        Reply::Sent(m) => {
            out.push(7)?;
            put_message(alloc, out, m)
        }
        Reply::Taken => Ok(out.push(8)?),
        Reply::ClockSpent => Ok(out.push(9)?),
        Reply::PoolFull => Ok(out.push(10)?),
    }
}

fn state_length(state: State) -> usize
    ensures value { result ≡ length (state_bytes state) }
    ensures most { result ≤ 10 }
{
    match state {
        State::Pending | State::Committed | State::Unknown => 1,
        State::Aborted(_) => 1 + ID,
    }
}

/// How many bytes a reply has: at most 1,213,477.
pub(crate) fn reply_length(reply: &Reply) -> usize
    requires { IsSpellableReply reply.now }
    ensures value { result ≡ length (reply_bytes reply.now) }
    ensures most { result ≤ 1213477 }
{
    match reply {
        Reply::Prepared(_) | Reply::Committed(_) | Reply::Conflict(_) => 1 + ID,
        Reply::Overwritten { key, current } => 1 + key_length(key) + version_length(*current),
        Reply::Value { version, value } => 1 + version_length(*version) + value_length(value),
        Reply::State(state) => 1 + state_length(*state),
        Reply::Sent(m) => 1 + message_length(m) as usize,
        Reply::Taken | Reply::ClockSpent | Reply::PoolFull => 1,
    }
}
