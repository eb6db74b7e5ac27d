//! Entries and batches: the one spelling of each, and their reader.
ghost use Rattle.std.specs.Prelude.{◌≡◌, ◌++◌, ◌^◌, ◌<◌, ◌≤◌, ◌∷◌, [], All, length, IfOk, OnOk};
ghost use Rattle.std.specs.List.{flat_map};
ghost use Rattle.helios_model.specs.Limits.{most_inputs, most_sites};
ghost use Rattle.helios_model.specs.Spellable.{IsSpellableEntry};
ghost use Rattle.helios_model.specs.Step.{is_journaled};
ghost use Rattle.helios_model.specs.World.{journaled};
ghost use Rattle.log_records.specs.Decoding.{Decodes, Gives, Takes, TakesAs};
ghost use Rattle.log_records.specs.Entries.{IsSpellableBatch, IsWritable, IsWritableInput, MayBeWritten, batch_bytes, batch_of, entries_at, entry_at, entry_bytes, input_at, input_bytes, pull_at, push_at, request_at};
ghost use Rattle.log_records.specs.Fields.{each_after};

use crate::asking::{ask_length, put_ask};
use crate::decoder::Decoder;
use crate::faults::DecodeFault;
use crate::lengths::message_length;
use crate::messages::put_message;
use helios_model::{Bytes, Entries, Entry, Input, MOST_INPUTS};
use std::alloc::{AllocError, Global};

impl Decoder<'_> {
    #[tactic(auto, unfolding(crate::specs::Entries::request_at))]
    fn request(&mut self, alloc: Global) -> Result<Input, DecodeFault>
        ensures { Takes result (request_at self.old.whole self.old.rest.now) self.old self.new }
    {
        let ask = self.ask(alloc)?;
        Ok(Input::Request(ask))
    }

    #[tactic(auto, unfolding(crate::specs::Entries::pull_at))]
    fn pull(&mut self, count: u8) -> Result<Input, DecodeFault>
        requires { count ≤ most_sites }
        ensures { Takes result (pull_at count self.old.whole self.old.rest.now) self.old self.new }
    {
        let to = self.site(count)?;
        Ok(Input::Pull(to))
    }

    /// A message of so many sites; one of another number is refused at its first byte.
    #[tactic(auto, unfolding(crate::specs::Entries::push_at))]
    fn push(&mut self, alloc: Global, count: u8) -> Result<Input, DecodeFault>
        ensures { Takes result (push_at count self.old.whole self.old.rest.now) self.old self.new }
    {
        let mut ahead = self.ahead();
        ahead.byte(count, count)?;
        let message = self.message(alloc)?;
        Ok(Input::Push(message))
    }

    #[tactic(auto, unfolding(crate::specs::Entries::input_at))]
    fn input(&mut self, alloc: Global, count: u8) -> Result<Input, DecodeFault>
        requires { count ≤ most_sites }
        ensures { Takes result (input_at count self.old.whole self.old.rest.now) self.old self.new }
    {
        let tag = self.byte(1, 3)?;
        if tag == 1 {
            self.request(alloc)
        } else if tag == 2 {
            self.pull(count)
        } else {
            self.push(alloc, count)
        }
    }

    #[tactic(auto, unfolding(crate::specs::Entries::entry_at))]
    fn entry(&mut self, alloc: Global, count: u8) -> Result<Entry, DecodeFault>
        requires { count ≤ most_sites }
        ensures { Takes result (entry_at count self.old.whole self.old.rest.now) self.old self.new }
    {
        let reading = self.long(0, u64::MAX)?;
        let input = self.input(alloc, count)?;
        Ok(Entry { reading, input })
    }

    fn entry_each(&mut self, alloc: Global, count: u8, many: u8) -> Result<Vec<Entry>, DecodeFault>
        requires { count ≤ most_sites }
        ensures { TakesAs (λ v. v.items) result (each_after (λ before. entry_at count self.old.whole) many [] self.old.rest.now) self.old self.new }
    {
        let mut entries = Vec::with_capacity(alloc, many as usize)?;
        for _ in 0..many {
            let entry = self.entry(alloc, count)?;
            entries.push(entry)?;
        }
        Ok(entries)
    }

    #[tactic(auto, unfolding(crate::specs::Entries::entries_at))]
    fn entries(&mut self, alloc: Global, count: u8) -> Result<Entries, DecodeFault>
        requires { count ≤ most_sites }
        ensures { Takes result (entries_at count self.old.whole self.old.rest.now) self.old self.new }
    {
        let many = self.byte(1, MOST_INPUTS as u8)?;
        let entries = self.entry_each(alloc, count, many)?;
        Ok(Entries::new(entries))
    }
}

fn put_input(out: &mut Vec<u8>, input: &Input) -> Result<(), AllocError>
    requires { IsWritableInput input.now }
    ensures { OnOk result (out.new.items ≡ out.old.items ++ input_bytes input.now) }
{
    match input {
        Input::Get(_) | Input::Status(_) => {}
        Input::Request(ask) => {
            out.push(1)?;
            put_ask(out, ask)?;
        }
        Input::Pull(to) => {
            out.push(2)?;
            out.push(to.number())?;
        }
        Input::Push(m) => {
            out.push(3)?;
            put_message(out, m)?;
        }
    }
    Ok(())
}

fn put_entry(out: &mut Vec<u8>, e: &Entry) -> Result<(), AllocError>
    requires { IsWritable e.now }
    ensures reading { e.now.reading < 2 ^ 64 }
    ensures written { OnOk result (out.new.items ≡ out.old.items ++ entry_bytes e.now) }
{
    out.extend_from_slice(&e.reading.to_be_bytes())?;
    put_input(out, &e.input)
}

/// Whether a journal keeps an input.
fn is_journaled(input: &Input) -> bool
    ensures { result ≡ is_journaled input.now }
{
    match input {
        Input::Get(_) | Input::Status(_) => false,
        Input::Request(_) | Input::Pull(_) | Input::Push(_) => true,
    }
}

/// Writes each of those entries in turn that a journal keeps.
fn put_kept(out: &mut Vec<u8>, entries: &[Entry]) -> Result<(), AllocError>
    requires { All MayBeWritten entries.now }
    ensures readings { OnOk result (All (λ e. e.reading < 2 ^ 64) (journaled entries.now)) }
    ensures written { OnOk result (out.new.items ≡ out.old.items ++ flat_map entry_bytes (journaled entries.now)) }
{
    for e in entries {
        if is_journaled(&e.input) {
            put_entry(out, e)?;
        }
    }
    Ok(())
}

fn input_length(input: &Input) -> usize
    requires { IsWritableInput input.now }
    ensures value { result ≡ length (input_bytes input.now) }
    ensures most { result ≤ 1213477 }
{
    match input {
        Input::Get(_) | Input::Status(_) => 0,
        Input::Request(ask) => 1 + ask_length(ask),
        Input::Pull(_) => 2,
        Input::Push(m) => 1 + message_length(m) as usize,
    }
}

fn entry_length(e: &Entry) -> usize
    requires { IsWritable e.now }
    ensures value { result ≡ length (entry_bytes e.now) }
    ensures most { result ≤ 1213485 }
{
    8 + input_length(&e.input)
}

/// How many bytes an entry adds to the spelling of a journal's batch.
fn kept_length(e: &Entry) -> usize
    requires { MayBeWritten e.now }
    ensures value { result ≡ length (flat_map entry_bytes (journaled (e.now ∷ []))) }
    ensures most { result ≤ 1213485 }
{
    if is_journaled(&e.input) {
        entry_length(e)
    } else {
        0
    }
}

/// The one spelling of an entry, which has at most 1,213,485 bytes.
pub fn encode_entry(alloc: Global, e: &Entry) -> Result<Bytes, AllocError>
    requires { IsWritable e.now }
    ensures value { IfOk result (λ bytes. bytes ≡ entry_bytes e.now) }
    ensures most { IfOk result (λ bytes. length bytes ≤ 1213485) }
{
    let mut out = Vec::with_capacity(alloc, entry_length(e))?;
    put_entry(&mut out, e)?;
    Ok(Bytes::new(out))
}

/// The one spelling of a batch, which has at most 19,415,761 bytes.
pub fn encode_batch(alloc: Global, es: &Entries) -> Result<Bytes, AllocError>
    requires few { length es.now ≤ most_inputs }
    requires writable { All IsWritable es.now }
    ensures value { IfOk result (λ bytes. bytes ≡ batch_bytes es.now) }
    ensures most { IfOk result (λ bytes. length bytes ≤ 19415761) }
{
    encode_journaled(alloc, es)
}

/// How many of the entries a journal keeps.
pub fn journaled_count(es: &Entries) -> usize
    requires few { length es.now ≤ most_inputs }
    ensures { result ≡ length (journaled es.now) }
{
    let entries = es.items();
    let mut count = 0;
    for e in entries {
        if is_journaled(&e.input) {
            count += 1;
        }
    }
    count
}

/// How many bytes the spelling of the batch of those entries has that a journal keeps.
pub fn journaled_length(es: &Entries) -> usize
    requires few { length es.now ≤ most_inputs }
    requires written { All MayBeWritten es.now }
    ensures value { result ≡ length (batch_bytes (journaled es.now)) }
    ensures most { result ≤ 19415761 }
{
    let entries = es.items();
    let mut length = 1;
    for e in entries {
        length += kept_length(e);
    }
    length
}

/// The one spelling of the batch of those entries that a journal keeps, which has at most 19,415,761 bytes.
#[tactic(auto, using(crate::proofs::Kept::kept_few))]
pub fn encode_journaled(alloc: Global, es: &Entries) -> Result<Bytes, AllocError>
    requires few { length es.now ≤ most_inputs }
    requires written { All MayBeWritten es.now }
    ensures value { IfOk result (λ bytes. bytes ≡ batch_bytes (journaled es.now)) }
    ensures readings { OnOk result (All (λ e. e.reading < 2 ^ 64) (journaled es.now)) }
    ensures most { IfOk result (λ bytes. length bytes ≤ 19415761) }
{
    let mut out = Vec::with_capacity(alloc, journaled_length(es))?;
    out.push(journaled_count(es) as u8)?;
    put_kept(&mut out, es.items())?;
    Ok(Bytes::new(out))
}

/// The entry of a journal of so many sites that begins the input, and the length of its spelling in bytes.
pub fn decode_entry(alloc: Global, input: &[u8], count: u8) -> Result<(Entry, usize), DecodeFault>
    requires { count ≤ most_sites }
    ensures spellable { IfOk result (λ read. IsSpellableEntry count read.0) }
    ensures read { Decodes input.now result (entry_at count (length input.now) input.now) }
{
    let mut decoder = Decoder::new(input);
    let entry = decoder.entry(alloc, count)?;
    Ok((entry, decoder.place()))
}

/// The batch of a journal of so many sites that the whole input is; a byte left over is bad at its place.
#[tactic(auto, unfolding(crate::specs::Entries::batch_of))]
pub fn decode_batch(alloc: Global, input: &[u8], count: u8) -> Result<Entries, DecodeFault>
    requires { count ≤ most_sites }
    ensures spellable { IfOk result (IsSpellableBatch count) }
    ensures read { Gives result (batch_of count input.now) }
{
    let mut decoder = Decoder::new(input);
    let entries = decoder.entries(alloc, count)?;
    if !decoder.is_done() {
        return Err(DecodeFault::Bad {
            at: decoder.place(),
        });
    }
    Ok(entries)
}
