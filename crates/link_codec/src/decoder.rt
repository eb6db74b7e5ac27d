//! The fields of a body, taken one after another.
ghost use Rattle.std.specs.Prelude.{◌≡◌};

use crate::faults::LinkFault;
use crate::fronts::{front_ask, front_message};
use helios_model::{
    Ask, Bytes, Key, LAST_TIME, MOST_KEY_BYTES, MOST_SITES, MOST_VALUE_BYTES, Message, SiteId,
    Time, TxnId, Val, Version, key_from,
};
use std::alloc::Global;

/// What is left of a body.
#[derive(Drop)]
pub(crate) struct Decoder<'a> {
    rest: &'a [u8],
}

impl<'a> Decoder<'a> {
    ghost use Rattle.std.specs.Prelude.{◌&&◌, ◌==◌, not, nat_lt, true, false, length};
    ghost use Rattle.std.specs.Int.{w16, w64};
    ghost use Rattle.helios_model.specs.Spellings.{is_key};
    ghost use Rattle.helios_model.specs.Limits.{last_time, most_sites, most_value_bytes};
    ghost use Rattle.log_records.specs.Entries.{ask_at};
    ghost use Rattle.log_records.specs.Fields.{is_within, byte_at, number_at, text_at};
    ghost use Rattle.log_records.specs.Ids.{id_at, version_at};
    ghost use Rattle.log_records.specs.Keys.{value_at};
    ghost use Rattle.log_records.specs.Messages.{message_at};
    ghost use Rattle.link_codec.specs.Decoding.{Takes, TakesAs};
    ghost use Rattle.link_codec.specs.FrameReading.{one_key_at, site_at};

    pub(crate) fn new(body: &'a [u8]) -> Decoder<'a>
        ensures { result.rest.now ≡ body.now }
    {
        Decoder { rest: body }
    }

    /// Whether nothing is left.
    pub(crate) fn is_done(&self) -> bool
        ensures { result ≡ (length self.now.rest.now == 0) }
    {
        self.rest.is_empty()
    }

    /// One byte, from the least to the most.
    #[tactic(auto, unfolding(log_records::specs::Fields::byte_at))]
    pub(crate) fn byte(&mut self, least: u8, most: u8) -> Result<u8, LinkFault>
        ensures { Takes result (byte_at (is_within least most) 0 self.old.rest.now) self.new.rest.now }
    {
        match self.rest {
            [] => Err(LinkFault::Bad),
            [first, rest @ ..] => {
                if *first < least || *first > most {
                    return Err(LinkFault::Bad);
                }
                self.rest = rest;
                Ok(*first)
            }
        }
    }

    /// One of the sites that a cluster can have.
    #[tactic(auto, unfolding(log_records::specs::Fields::byte_at))]
    pub(crate) fn site(&mut self) -> Result<SiteId, LinkFault>
        ensures { Takes result (site_at self.old.rest.now) self.new.rest.now }
    {
        match self.rest {
            [] => Err(LinkFault::Bad),
            [first, rest @ ..] => {
                if *first >= MOST_SITES {
                    return Err(LinkFault::Bad);
                }
                self.rest = rest;
                Ok(SiteId::of(*first))
            }
        }
    }

    /// The length of a stored value.
    #[tactic(auto, unfolding(log_records::specs::Fields::number_at))]
    fn value_length(&mut self) -> Result<u16, LinkFault>
        ensures { Takes result (number_at w16 (is_within 0 most_value_bytes) 0 self.old.rest.now) self.new.rest.now }
    {
        if self.rest.len() < 2 {
            return Err(LinkFault::Bad);
        }
        let (front, rest) = self.rest.split_at(2);
        let length = u16::from_be_bytes([front[0], front[1]]);
        if length > MOST_VALUE_BYTES as u16 {
            return Err(LinkFault::Bad);
        }
        self.rest = rest;
        Ok(length)
    }

    /// The time of an id, in half microseconds.
    #[tactic(auto, unfolding(log_records::specs::Fields::number_at))]
    fn time(&mut self) -> Result<Time, LinkFault>
        ensures { Takes result (number_at w64 (is_within 1 last_time) 0 self.old.rest.now) self.new.rest.now }
    {
        if self.rest.len() < 8 {
            return Err(LinkFault::Bad);
        }
        let (front, rest) = self.rest.split_at(8);
        let time = u64::from_be_bytes([
            front[0], front[1], front[2], front[3], front[4], front[5], front[6], front[7],
        ]);
        if time < 1 || time > LAST_TIME {
            return Err(LinkFault::Bad);
        }
        self.rest = rest;
        Ok(Time::of(time))
    }

    /// So many bytes as they are.
    #[tactic(auto, unfolding(log_records::specs::Fields::text_at))]
    pub(crate) fn text(&mut self, length: usize) -> Result<&'a [u8], LinkFault>
        ensures { TakesAs (λ t. t.now) result (text_at (λ text. true) length 0 self.old.rest.now) self.new.rest.now }
    {
        if self.rest.len() < length {
            return Err(LinkFault::Bad);
        }
        let (front, rest) = self.rest.split_at(length);
        self.rest = rest;
        Ok(front)
    }

    #[tactic(auto, unfolding(log_records::specs::Ids::id_at), using(crate::proofs::Steps::refused_then))]
    pub(crate) fn id(&mut self) -> Result<TxnId, LinkFault>
        ensures { Takes result (id_at most_sites 0 self.old.rest.now) self.new.rest.now }
    {
        let site = self.site()?;
        let time = self.time()?;
        Ok(TxnId { site, time })
    }

    #[tactic(auto, unfolding(log_records::specs::Ids::version_at), using(crate::proofs::Steps::refused_then))]
    pub(crate) fn version(&mut self) -> Result<Version, LinkFault>
        ensures { Takes result (version_at 0 self.old.rest.now) self.new.rest.now }
    {
        if self.byte(0, 1)? == 0 {
            return Ok(Version::Initial);
        }
        let id = self.id()?;
        Ok(Version::Of(id))
    }

    /// So many bytes that are a key.
    fn key_of(&mut self, alloc: Global, length: u8) -> Result<Key, LinkFault>
        ensures { Takes result (text_at (λ key. is_key key && not false) length 0 self.old.rest.now) self.new.rest.now }
    {
        let text = self.text(length as usize)?;
        match key_from(Bytes::new(Vec::from_slice(alloc, text)?)) {
            None => Err(LinkFault::Bad),
            Some(key) => Ok(key),
        }
    }

    #[tactic(auto, unfolding(log_records::specs::Keys::key_at), using(crate::proofs::Steps::refused_then))]
    pub(crate) fn key(&mut self, alloc: Global) -> Result<Key, LinkFault>
        ensures { Takes result (one_key_at self.old.rest.now) self.new.rest.now }
    {
        let length = self.byte(1, MOST_KEY_BYTES as u8)?;
        self.key_of(alloc, length)
    }

    /// A stored value.
    #[tactic(auto, unfolding(log_records::specs::Keys::value_at, log_records::specs::Fields::text_at, log_records::specs::Fields::number_at), using(crate::proofs::Steps::refused_then))]
    pub(crate) fn value(&mut self, alloc: Global) -> Result<Val, LinkFault>
        ensures { Takes result (value_at 0 self.old.rest.now) self.new.rest.now }
    {
        let length = self.value_length()?;
        let text = self.text(length as usize)?;
        Ok(Val::of(Bytes::new(Vec::from_slice(alloc, text)?)))
    }

    /// What a client asks for.
    pub(crate) fn ask(&mut self, alloc: Global) -> Result<Ask, LinkFault>
        ensures { Takes result (ask_at 0 self.old.rest.now) self.new.rest.now }
    {
        let (ask, length) = front_ask(alloc, self.rest)?;
        self.rest = self.rest.split_at(length).1;
        Ok(ask)
    }

    /// A message, whose digest is that of its body.
    pub(crate) fn message(&mut self, alloc: Global) -> Result<Message, LinkFault>
        ensures { Takes result (message_at 0 self.old.rest.now) self.new.rest.now }
    {
        let (message, length) = front_message(alloc, self.rest)?;
        self.rest = self.rest.split_at(length).1;
        Ok(message)
    }
}
