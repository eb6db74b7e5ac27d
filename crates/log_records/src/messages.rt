//! Messages: the one spelling of each, and their reader.
ghost use Rattle.std.specs.Prelude.{◌≡◌, ◌≤◌, ◌<◌, ◌++◌, [], ◌∷◌, List, length, OnOk, IfOk};
ghost use Rattle.helios_model.specs.declared.records.Record.{Record};
ghost use Rattle.helios_model.specs.Limits.{most_records, most_sites};
ghost use Rattle.helios_model.specs.Log.{origin};
ghost use Rattle.sha2.specs.Sha256.{sha256};
ghost use Rattle.helios_model.specs.Spellable.{IsSpellableMessage};
ghost use Rattle.log_records.specs.Decoding.{Decodes, Takes, TakesAs};
ghost use Rattle.log_records.specs.Fields.{each_after};
ghost use Rattle.log_records.specs.Items.{list_bytes};
ghost use Rattle.log_records.specs.Messages.{AreLatest, body_at, body_bytes, digest_at, may_follow, message_at, message_bytes, next_at, other_at, records_at, route_at, times_at, times_bytes};
ghost use Rattle.log_records.specs.Records.{record_bytes};

use crate::decoder::Decoder;
use crate::encoding::put_record;
use crate::faults::DecodeFault;
use crate::latest::Latest;
use crate::lengths::message_length;
use crate::route::Route;
use helios_model::{
    Bytes, LAST_TIME, MOST_RECORDS, MOST_SITES, Message, Record, Records, SiteId, Times,
};
use sha2::{Digest, Sha256};
use std::alloc::{AllocError, Global};

fn put_times(out: &mut Vec<u8>, times: &[u64]) -> Result<(), AllocError>
    ensures { OnOk result (out.new.items ≡ out.old.items ++ times_bytes times.now) }
{
    for time in times {
        out.extend_from_slice(&time.to_be_bytes())?;
    }
    Ok(())
}

fn put_records(out: &mut Vec<u8>, records: &[Record]) -> Result<(), AllocError>
    requires { length records.now ≤ most_records }
    ensures { OnOk result (out.new.items ≡ out.old.items ++ list_bytes record_bytes records.now) }
{
    out.push(records.len() as u8)?;
    for r in records {
        put_record(out, r)?;
    }
    Ok(())
}

fn put_body(out: &mut Vec<u8>, m: &Message) -> Result<(), AllocError>
    requires { length m.now.records ≤ most_records }
    ensures { OnOk result (out.new.items ≡ out.old.items ++ body_bytes m.now) }
{
    out.push(m.count)?;
    out.push(m.from.number())?;
    out.push(m.to.number())?;
    put_times(out, m.table.items())?;
    put_times(out, m.cover.items())?;
    put_records(out, m.records.items())
}

/// A message behind what the buffer has.
pub(crate) fn put_message(out: &mut Vec<u8>, m: &Message) -> Result<(), AllocError>
    requires { length m.now.records ≤ most_records }
    ensures { OnOk result (out.new.items ≡ out.old.items ++ message_bytes m.now) }
{
    let start = out.len();
    put_body(out, m)?;
    let digest = Sha256::digest(&out.as_slice()[start..]);
    out.extend_from_slice(&digest)
}

/// The one spelling of a message.
pub fn encode_message(alloc: Global, m: &Message) -> Result<Bytes, AllocError>
    requires { IsSpellableMessage m.now }
    ensures { IfOk result (λ bytes. bytes ≡ message_bytes m.now) }
{
    let mut out = Vec::with_capacity(alloc, message_length(m) as usize)?;
    put_message(&mut out, m)?;
    Ok(Bytes::new(out))
}

/// Whether a record may stand behind others.
fn may_follow(cover: &[u64], latest: &Latest, r: &Record) -> bool
    requires { origin r.now < length cover.now }
    ensures { (before : List Record) → AreLatest before latest.now.times → result ≡ may_follow cover.now before r.now }
{
    let origin = r.origin();
    let time = r.own_time();
    latest.is_below(origin, time) && time.half_micros() <= cover[origin.number() as usize]
}

impl Decoder<'_> {
    /// One of so many sites, other than this one.
    #[tactic(auto, unfolding(crate::specs::Messages::other_at, crate::specs::Fields::byte_at))]
    fn other_site(&mut self, count: u8, one: SiteId) -> Result<SiteId, DecodeFault>
        requires { count ≤ most_sites }
        ensures { Takes result (other_at count one self.old.whole self.old.rest.now) self.old self.new }
    {
        let at = self.place();
        let site = self.site(count)?;
        if site == one {
            return Err(DecodeFault::Bad { at });
        }
        Ok(site)
    }

    #[tactic(auto, unfolding(crate::specs::Messages::route_at))]
    fn route(&mut self) -> Result<Route, DecodeFault>
        ensures { Takes result (route_at self.old.whole self.old.rest.now) self.old self.new }
    {
        let count = self.byte(2, MOST_SITES)?;
        let from = self.site(count)?;
        let to = self.other_site(count, from)?;
        Ok(Route { count, from, to })
    }

    fn times_each(&mut self, alloc: Global, count: usize) -> Result<Vec<u64>, DecodeFault>
        ensures { TakesAs (λ v. v.items) result (times_at count self.old.whole self.old.rest.now) self.old self.new }
    {
        let mut times = Vec::with_capacity(alloc, count)?;
        for _ in 0..count {
            let time = self.long(0, LAST_TIME)?;
            times.push(time)?;
        }
        Ok(times)
    }

    /// So many times.
    fn times(&mut self, alloc: Global, count: usize) -> Result<Times, DecodeFault>
        ensures { Takes result (times_at count self.old.whole self.old.rest.now) self.old self.new }
    {
        let times = self.times_each(alloc, count)?;
        Ok(Times::new(times))
    }

    /// A record behind others, of which the last of each origin are noted; it is noted too.
    #[tactic(auto, unfolding(crate::specs::Messages::next_at))]
    fn next(
        &mut self,
        alloc: Global,
        count: u8,
        cover: &[u64],
        latest: &mut Latest,
    ) -> Result<Record, DecodeFault>
        requires few { count ≤ most_sites }
        requires covered { length cover.now ≡ count }
        ensures taken { (before : List Record) → AreLatest before latest.old.times → Takes result (next_at count cover.now self.old.whole before self.old.rest.now) self.old self.new }
        ensures noted { IfOk result (λ r. (before : List Record) → AreLatest before latest.old.times → AreLatest (before ++ r ∷ []) latest.new.times) }
    {
        let at = self.place();
        let record = self.record(alloc, count)?;
        if !may_follow(cover, latest, &record) {
            return Err(DecodeFault::Bad { at });
        }
        latest.note(&record);
        Ok(record)
    }

    fn next_each(
        &mut self,
        alloc: Global,
        count: u8,
        cover: &[u64],
        many: u8,
    ) -> Result<Vec<Record>, DecodeFault>
        requires few { count ≤ most_sites }
        requires covered { length cover.now ≡ count }
        ensures { TakesAs (λ v. v.items) result (each_after (next_at count cover.now self.old.whole) many [] self.old.rest.now) self.old self.new }
    {
        let mut latest = Latest::new();
        let mut records = Vec::with_capacity(alloc, many as usize)?;
        for _ in 0..many {
            let record = self.next(alloc, count, cover, &mut latest)?;
            records.push(record)?;
        }
        Ok(records)
    }

    #[tactic(auto, unfolding(crate::specs::Messages::records_at))]
    fn records(&mut self, alloc: Global, count: u8, cover: &[u64]) -> Result<Records, DecodeFault>
        requires few { count ≤ most_sites }
        requires covered { length cover.now ≡ count }
        ensures { Takes result (records_at count cover.now self.old.whole self.old.rest.now) self.old self.new }
    {
        let many = self.byte(0, MOST_RECORDS as u8)?;
        let records = self.next_each(alloc, count, cover, many)?;
        Ok(Records::new(records))
    }

    #[tactic(auto, unfolding(crate::specs::Messages::body_at))]
    fn body(&mut self, alloc: Global) -> Result<Message, DecodeFault>
        ensures { Takes result (body_at self.old.whole self.old.rest.now) self.old self.new }
    {
        let route = self.route()?;
        let side = route.count as usize;
        let table = self.times(alloc, side * side)?;
        let cover = self.times(alloc, side)?;
        let records = self.records(alloc, route.count, cover.items())?;
        Ok(Message {
            from: route.from,
            to: route.to,
            count: route.count,
            table,
            cover,
            records,
        })
    }

    /// The digest of a body.
    #[tactic(auto, unfolding(crate::specs::Messages::digest_at))]
    fn digest(&mut self, body: &[u8]) -> Result<(), DecodeFault>
        ensures { TakesAs (λ _. sha256 body.now) result (digest_at body.now self.old.whole self.old.rest.now) self.old self.new }
    {
        let text = self.text(32)?;
        if text != Sha256::digest(body).as_slice() {
            return Err(DecodeFault::BadDigest);
        }
        Ok(())
    }

    /// A message, whose digest is that of its body.
    #[tactic(auto, unfolding(crate::specs::Messages::message_at))]
    pub(crate) fn message(&mut self, alloc: Global) -> Result<Message, DecodeFault>
        ensures { Takes result (message_at self.old.whole self.old.rest.now) self.old self.new }
    {
        let input = self.rest();
        let message = self.body(alloc)?;
        let length = input.len() - self.rest().len();
        self.digest(&input[..length])?;
        Ok(message)
    }
}

/// The message that begins the input, and the length of its spelling in bytes.
pub fn decode_message(alloc: Global, input: &[u8]) -> Result<(Message, usize), DecodeFault>
    ensures spellable { IfOk result (λ read. IsSpellableMessage read.0) }
    ensures read { Decodes input.now result (message_at (length input.now) input.now) }
{
    let mut decoder = Decoder::new(input);
    let message = decoder.message(alloc)?;
    Ok((message, decoder.place()))
}
