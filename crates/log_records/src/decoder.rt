//! The fields of records, taken from an input one after another.
ghost use Rattle.std.specs.Prelude.{◌≡◌, ◌≢◌, ◌≤◌, ◌-◌, Err, length};

use crate::faults::DecodeFault;
use crate::given::is_given;
use helios_model::{
    Bytes, Key, Keyed, LAST_TIME, MOST_KEY_BYTES, MOST_SITES, MOST_VALUE_BYTES, SiteId, Time,
    TxnId, Val, Version, key_from,
};
use std::alloc::Global;

/// An input, and what is left of it.
#[derive(Drop)]
pub(crate) struct Decoder<'a> {
    rest: &'a [u8],
    whole: usize,
    ghost within: { length rest.now ≤ whole },
}

impl<'a> Decoder<'a> {
    ghost use Rattle.std.specs.Prelude.{◌&&◌, ◌==◌, not, nat_lt, nat_le, true};
    ghost use Rattle.std.specs.Int.{w16, w64};
    ghost use Rattle.helios_model.specs.Spellings.{is_key};
    ghost use Rattle.helios_model.specs.Limits.{most_sites, most_value_bytes};
    ghost use Rattle.log_records.specs.Fields.{is_within, byte_at, number_at, text_at};
    ghost use Rattle.log_records.specs.Ids.{id_at, version_at};
    ghost use Rattle.log_records.specs.Keys.{key_at, value_at};
    ghost use Rattle.log_records.specs.Items.{is_given};
    ghost use Rattle.log_records.specs.Decoding.{Takes, TakesAs};

    pub(crate) fn new(input: &'a [u8]) -> Decoder<'a>
        ensures rest { result.rest.now ≡ input.now }
        ensures whole { result.whole ≡ length input.now }
    {
        Decoder {
            rest: input,
            whole: input.len(),
        }
    }

    /// What is left.
    pub(crate) fn rest(&self) -> &'a [u8]
        ensures { result.now ≡ self.now.rest.now }
    {
        self.rest
    }

    /// How many bytes were taken.
    pub(crate) fn place(&self) -> usize
        ensures { result ≡ self.now.whole - length self.now.rest.now }
    {
        self.whole - self.rest.len()
    }

    /// Whether nothing is left.
    pub(crate) fn is_done(&self) -> bool
        ensures { result ≡ (length self.now.rest.now == 0) }
    {
        self.rest.is_empty()
    }

    /// The same place of the same input.
    pub(crate) fn ahead(&self) -> Decoder<'a>
        ensures rest { result.rest.now ≡ self.now.rest.now }
        ensures whole { result.whole ≡ self.now.whole }
    {
        Decoder {
            rest: self.rest,
            whole: self.whole,
        }
    }

    /// One byte, from the least to the most.
    #[tactic(auto, unfolding(crate::specs::Fields::byte_at))]
    pub(crate) fn byte(&mut self, least: u8, most: u8) -> Result<u8, DecodeFault>
        ensures takes { Takes result (byte_at (is_within least most) self.old.whole self.old.rest.now) self.old self.new }
        ensures no_memory_taken { result ≢ Err DecodeFault.NoMemory }
    {
        let at = self.place();
        match self.rest {
            [] => Err(DecodeFault::Cut),
            [first, rest @ ..] => {
                if *first < least || *first > most {
                    return Err(DecodeFault::Bad { at });
                }
                self.rest = rest;
                Ok(*first)
            }
        }
    }

    /// One of so many sites.
    #[tactic(auto, unfolding(crate::specs::Fields::byte_at))]
    pub(crate) fn site(&mut self, count: u8) -> Result<SiteId, DecodeFault>
        requires { count ≤ most_sites }
        ensures takes { Takes result (byte_at (λ b. nat_lt b count) self.old.whole self.old.rest.now) self.old self.new }
        ensures no_memory_taken { result ≢ Err DecodeFault.NoMemory }
    {
        let at = self.place();
        match self.rest {
            [] => Err(DecodeFault::Cut),
            [first, rest @ ..] => {
                if *first >= count {
                    return Err(DecodeFault::Bad { at });
                }
                self.rest = rest;
                Ok(SiteId::of(*first))
            }
        }
    }

    /// A number of 2 bytes, from the least to the most.
    #[tactic(auto, unfolding(crate::specs::Fields::number_at))]
    fn number(&mut self, least: u16, most: u16) -> Result<u16, DecodeFault>
        ensures { Takes result (number_at w16 (is_within least most) self.old.whole self.old.rest.now) self.old self.new }
    {
        if self.rest.len() < 2 {
            return Err(DecodeFault::Cut);
        }
        let (front, rest) = self.rest.split_at(2);
        let number = u16::from_be_bytes([front[0], front[1]]);
        if number < least || number > most {
            return Err(DecodeFault::Bad { at: self.place() });
        }
        self.rest = rest;
        Ok(number)
    }

    /// A number of 8 bytes, from the least to the most.
    #[tactic(auto, unfolding(crate::specs::Fields::number_at))]
    pub(crate) fn long(&mut self, least: u64, most: u64) -> Result<u64, DecodeFault>
        ensures { Takes result (number_at w64 (is_within least most) self.old.whole self.old.rest.now) self.old self.new }
    {
        if self.rest.len() < 8 {
            return Err(DecodeFault::Cut);
        }
        let (front, rest) = self.rest.split_at(8);
        let number = u64::from_be_bytes([
            front[0], front[1], front[2], front[3], front[4], front[5], front[6], front[7],
        ]);
        if number < least || number > most {
            return Err(DecodeFault::Bad { at: self.place() });
        }
        self.rest = rest;
        Ok(number)
    }

    /// So many bytes as they are.
    #[tactic(auto, unfolding(crate::specs::Fields::text_at))]
    pub(crate) fn text(&mut self, length: usize) -> Result<&'a [u8], DecodeFault>
        ensures takes { TakesAs (λ t. t.now) result (text_at (λ text. true) length self.old.whole self.old.rest.now) self.old self.new }
        ensures no_memory_taken { result ≢ Err DecodeFault.NoMemory }
    {
        if self.rest.len() < length {
            return Err(DecodeFault::Cut);
        }
        let (front, rest) = self.rest.split_at(length);
        self.rest = rest;
        Ok(front)
    }

    /// The id of a transaction of one of so many sites.
    #[tactic(auto, unfolding(crate::specs::Ids::id_at))]
    pub(crate) fn id(&mut self, count: u8) -> Result<TxnId, DecodeFault>
        requires { count ≤ most_sites }
        ensures { Takes result (id_at count self.old.whole self.old.rest.now) self.old self.new }
    {
        let site = self.site(count)?;
        let time = self.long(1, LAST_TIME)?;
        Ok(TxnId {
            site,
            time: Time::of(time),
        })
    }

    /// The version of a key.
    #[tactic(auto, unfolding(crate::specs::Ids::version_at))]
    pub(crate) fn version(&mut self) -> Result<Version, DecodeFault>
        ensures { Takes result (version_at self.old.whole self.old.rest.now) self.old self.new }
    {
        if self.byte(0, 1)? == 0 {
            return Ok(Version::Initial);
        }
        let id = self.id(MOST_SITES)?;
        Ok(Version::Of(id))
    }

    /// So many bytes that are a key, which none of these items has.
    fn key_of<T: Keyed>(
        &mut self,
        alloc: Global,
        length: u8,
        given: &[T],
    ) -> Result<Key, DecodeFault>
        ensures { Takes result (text_at (λ key. is_key key && not (is_given T.key_of given.now key)) length self.old.whole self.old.rest.now) self.old self.new }
    {
        let at = self.place();
        let text = self.text(length as usize)?;
        match key_from(Bytes::new(Vec::from_slice(alloc, text)?)) {
            None => Err(DecodeFault::Bad { at }),
            Some(key) => {
                if is_given(given, &key) {
                    return Err(DecodeFault::Bad { at });
                }
                Ok(key)
            }
        }
    }

    /// A key that none of these items has.
    #[tactic(auto, unfolding(crate::specs::Keys::key_at))]
    pub(crate) fn key<T: Keyed>(&mut self, alloc: Global, given: &[T]) -> Result<Key, DecodeFault>
        ensures { Takes result (key_at (is_given T.key_of given.now) self.old.whole self.old.rest.now) self.old self.new }
    {
        let length = self.byte(1, MOST_KEY_BYTES as u8)?;
        self.key_of(alloc, length, given)
    }

    /// A stored value.
    #[tactic(auto, unfolding(crate::specs::Keys::value_at, crate::specs::Fields::text_at, crate::specs::Fields::number_at))]
    pub(crate) fn value(&mut self, alloc: Global) -> Result<Val, DecodeFault>
        ensures { Takes result (value_at self.old.whole self.old.rest.now) self.old self.new }
    {
        let length = self.number(0, MOST_VALUE_BYTES as u16)?;
        let text = self.text(length as usize)?;
        Ok(Val::of(Bytes::new(Vec::from_slice(alloc, text)?)))
    }
}
