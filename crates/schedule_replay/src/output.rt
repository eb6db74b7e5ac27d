//! What a replay tells: the lines, the messages that were released, the commits, and how much was written.
ghost use Rattle.std.specs.Prelude.{◌≡◌, ◌+◌, ◌-◌, ◌^◌, ◌<◌, ◌++◌, [], ◌∷◌, OnOk, All, codes, length, min, if◌then◌else◌};
ghost use Rattle.std.specs.List.{sum_by};
ghost use Rattle.std.specs.Option.{option_to_list};
ghost use Rattle.helios_model.specs.Spellable.{IsSpellableReply};
ghost use Rattle.helios_model.specs.World.{message_in};
ghost use Rattle.schedule_replay.specs.Progress.{message_size};
ghost use Rattle.schedule_replay.specs.Report.{step_line};
ghost use Rattle.schedule_replay.specs.Taking.{HasAdded, HasTold};

use crate::lines::{is_refusal, push_reply_line, push_restart_line, push_stopped_line};
use helios_model::{CommitEvent, Message, Reply, SiteId};
use log_records::message_length;
use std::alloc::{AllocError, Global};

/// What a replay has told so far.
#[derive(Drop)]
pub(crate) struct Output {
    pub(crate) text: Vec<u8>,
    /// The messages that were released, each at its number.
    pub(crate) sent: Vec<Message>,
    pub(crate) commits: Vec<CommitEvent>,
    pub(crate) refusals: u64,
    /// How many bytes were written: heads, frames, messages and lines.
    pub(crate) volume: u64,
}

/// Keeps the message of a reply at its number.
fn release(sent: &mut Vec<Message>, reply: Reply) -> Result<(), AllocError>
    ensures { OnOk result (sent.new.items ≡ sent.old.items ++ option_to_list (message_in reply)) }
{
    if let Reply::Sent(m) = reply {
        sent.push(m)?;
    }
    Ok(())
}

/// How many bytes the message of a reply has.
fn released_size(reply: &Reply) -> u64
    requires { IsSpellableReply reply.now }
    ensures { result ≡ sum_by message_size (option_to_list (message_in reply.now)) }
{
    match reply {
        Reply::Sent(m) => message_length(m),
        _ => 0,
    }
}

impl Output {
    /// Nothing was told.
    pub(crate) fn new(alloc: Global) -> Output
        ensures text { result.text.items ≡ [] }
        ensures sent { result.sent.items ≡ [] }
        ensures commits { result.commits.items ≡ [] }
        ensures refusals { result.refusals ≡ 0 }
        ensures volume { result.volume ≡ 0 }
    {
        Output {
            text: Vec::new(alloc),
            sent: Vec::new(alloc),
            commits: Vec::new(alloc),
            refusals: 0,
            volume: 0,
        }
    }

    /// How many bytes the lines have.
    fn length(&self) -> u64
        ensures { result ≡ length self.now.text.items }
    {
        self.text.len() as u64
    }

    /// How many messages were released.
    fn released(&self) -> usize
        ensures { result ≡ length self.now.sent.items }
    {
        self.sent.len()
    }

    /// Counts what was written.
    pub(crate) fn count(&mut self, bytes: u64)
        ensures text { self.new.text ≡ self.old.text }
        ensures sent { self.new.sent ≡ self.old.sent }
        ensures commits { self.new.commits ≡ self.old.commits }
        ensures refusals { self.new.refusals ≡ self.old.refusals }
        ensures volume { self.new.volume ≡ min (self.old.volume + bytes) (2 ^ 64 - 1) }
    {
        self.volume = self.volume.saturating_add(bytes);
    }

    /// Adds the line of a stopped batch.
    pub(crate) fn tell_stopped(
        &mut self,
        number: u64,
        site: SiteId,
        is_kept: bool,
    ) -> Result<(), AllocError>
        ensures { OnOk result (HasAdded self.old (step_line number site (if is_kept then codes "kept" else codes "lost")) self.new) }
    {
        let start = self.length();
        push_stopped_line(&mut self.text, number, site, is_kept)?;
        self.count(self.length() - start);
        Ok(())
    }

    /// Adds the line of a restart.
    pub(crate) fn tell_restart(&mut self, number: u64, site: SiteId) -> Result<(), AllocError>
        ensures { OnOk result (HasAdded self.old (step_line number site (codes "restarted")) self.new) }
    {
        let start = self.length();
        push_restart_line(&mut self.text, number, site)?;
        self.count(self.length() - start);
        Ok(())
    }

    /// Tells a reply, and releases its message.
    fn tell(
        &mut self,
        alloc: Global,
        number: u64,
        site: SiteId,
        reply: Reply,
    ) -> Result<(), AllocError>
        requires room { self.old.refusals + 1 < 2 ^ 64 }
        requires spelled { IsSpellableReply reply }
        ensures { OnOk result (HasTold number site self.old (reply ∷ []) self.new) }
    {
        let start = self.length();
        let released = self.released();
        push_reply_line(alloc, &mut self.text, number, site, released, &reply)?;
        self.count(self.length() - start);
        self.count(released_size(&reply));
        if is_refusal(&reply) {
            self.refusals += 1;
        }
        release(&mut self.sent, reply)
    }

    /// Tells the replies to a batch, one after the other.
    pub(crate) fn tell_all(
        &mut self,
        alloc: Global,
        number: u64,
        site: SiteId,
        replies: Vec<Reply>,
    ) -> Result<(), AllocError>
        requires counted { self.old.volume < 2 ^ 64 }
        requires room { self.old.refusals + length replies.items < 2 ^ 64 }
        requires spelled { All IsSpellableReply replies.items }
        ensures { OnOk result (HasTold number site self.old replies.items self.new) }
    {
        for reply in replies {
            self.tell(alloc, number, site, reply)?;
        }
        Ok(())
    }
}
