//! What a client asks for: readers of its reads and puts, and writers behind what a buffer has.
ghost use Rattle.std.specs.Prelude.{◌≡◌, ◌++◌, ◌≤◌, [], length, OnOk};
ghost use Rattle.helios_model.specs.Limits.{most_items};
ghost use Rattle.log_records.specs.Decoding.{Takes, TakesAs};
ghost use Rattle.log_records.specs.Entries.{ask_at, ask_bytes};
ghost use Rattle.log_records.specs.Fields.{each_after};
ghost use Rattle.log_records.specs.Items.{put_at, put_bytes, puts_at, puts_bytes};

use crate::decoder::Decoder;
use crate::encoding::{put_key, put_reads, put_value};
use crate::faults::DecodeFault;
use crate::lengths::{key_length, reads_length, value_length};
use helios_model::{Ask, MOST_ITEMS, PutItem, Puts};
use std::alloc::{AllocError, Global};

impl Decoder<'_> {
    #[tactic(auto, unfolding(crate::specs::Items::put_at))]
    fn put(&mut self, alloc: Global, before: &[PutItem]) -> Result<PutItem, DecodeFault>
        ensures { Takes result (put_at self.old.whole before.now self.old.rest.now) self.old self.new }
    {
        let key = self.key(alloc, before)?;
        let value = self.value(alloc)?;
        Ok(PutItem { key, value })
    }

    fn put_each(&mut self, alloc: Global, count: u8) -> Result<Vec<PutItem>, DecodeFault>
        ensures { TakesAs (λ v. v.items) result (each_after (put_at self.old.whole) count [] self.old.rest.now) self.old self.new }
    {
        let mut items = Vec::with_capacity(alloc, count as usize)?;
        for _ in 0..count {
            let item = self.put(alloc, items.as_slice())?;
            items.push(item)?;
        }
        Ok(items)
    }

    #[tactic(auto, unfolding(crate::specs::Items::puts_at))]
    fn puts(&mut self, alloc: Global) -> Result<Puts, DecodeFault>
        ensures { Takes result (puts_at self.old.whole self.old.rest.now) self.old self.new }
    {
        let count = self.byte(0, MOST_ITEMS as u8)?;
        let items = self.put_each(alloc, count)?;
        Ok(Puts::new(items))
    }

    /// What a client asks for.
    #[tactic(auto, unfolding(crate::specs::Entries::ask_at))]
    pub(crate) fn ask(&mut self, alloc: Global) -> Result<Ask, DecodeFault>
        ensures { Takes result (ask_at self.old.whole self.old.rest.now) self.old self.new }
    {
        let reads = self.reads(alloc)?;
        let puts = self.puts(alloc)?;
        Ok(Ask::of(reads, puts))
    }
}

fn put_put(out: &mut Vec<u8>, put: &PutItem) -> Result<(), AllocError>
    ensures { OnOk result (out.new.items ≡ out.old.items ++ put_bytes put.now) }
{
    put_key(out, &put.key)?;
    put_value(out, &put.value)
}

fn put_puts(out: &mut Vec<u8>, puts: &[PutItem]) -> Result<(), AllocError>
    requires { length puts.now ≤ most_items }
    ensures { OnOk result (out.new.items ≡ out.old.items ++ puts_bytes puts.now) }
{
    out.push(puts.len() as u8)?;
    for put in puts {
        put_put(out, put)?;
    }
    Ok(())
}

pub(crate) fn put_ask(out: &mut Vec<u8>, ask: &Ask) -> Result<(), AllocError>
    ensures { OnOk result (out.new.items ≡ out.old.items ++ ask_bytes ask.now) }
{
    put_reads(out, ask.reads().items())?;
    put_puts(out, ask.puts().items())
}

fn put_length(put: &PutItem) -> usize
    ensures value { result ≡ length (put_bytes put.now) }
    ensures most { result ≤ 1091 }
{
    key_length(&put.key) + value_length(&put.value)
}

fn puts_length(puts: &[PutItem]) -> usize
    requires { length puts.now ≤ most_items }
    ensures value { result ≡ length (puts_bytes puts.now) }
    ensures most { result ≤ 17457 }
{
    let mut length = 1;
    for put in puts {
        length += put_length(put);
    }
    length
}

pub(crate) fn ask_length(ask: &Ask) -> usize
    ensures value { result ≡ length (ask_bytes ask.now) }
    ensures most { result ≤ 18658 }
{
    reads_length(ask.reads().items()) + puts_length(ask.puts().items())
}
