//! Readers of records.
ghost use Rattle.std.specs.Prelude.{◌≡◌, ◌≤◌, [], length};
ghost use Rattle.helios_model.specs.Limits.{most_sites};
ghost use Rattle.log_records.specs.Fields.{each_after};
ghost use Rattle.log_records.specs.Items.{read_at, reads_at, write_at, writes_at};
ghost use Rattle.log_records.specs.Records.{prepare_behind, prepare_at, commit_at, abort_at, end_at, record_at};
ghost use Rattle.log_records.specs.Decoding.{Decodes, Takes, TakesAs};

use crate::decoder::Decoder;
use crate::faults::DecodeFault;
use helios_model::{
    LAST_TIME, MOST_ITEMS, Prepare, ReadItem, Reads, Record, Time, TxnId, WriteItem, Writes,
};
use std::alloc::Global;

impl Decoder<'_> {
    #[tactic(auto, unfolding(crate::specs::Items::read_at))]
    fn read(&mut self, alloc: Global, before: &[ReadItem]) -> Result<ReadItem, DecodeFault>
        ensures { Takes result (read_at self.old.whole before.now self.old.rest.now) self.old self.new }
    {
        let key = self.key(alloc, before)?;
        let version = self.version()?;
        Ok(ReadItem { key, version })
    }

    fn read_each(&mut self, alloc: Global, count: u8) -> Result<Vec<ReadItem>, DecodeFault>
        ensures { TakesAs (λ v. v.items) result (each_after (read_at self.old.whole) count [] self.old.rest.now) self.old self.new }
    {
        let mut items = Vec::with_capacity(alloc, count as usize)?;
        for _ in 0..count {
            let item = self.read(alloc, items.as_slice())?;
            items.push(item)?;
        }
        Ok(items)
    }

    #[tactic(auto, unfolding(crate::specs::Items::reads_at))]
    pub(crate) fn reads(&mut self, alloc: Global) -> Result<Reads, DecodeFault>
        ensures { Takes result (reads_at self.old.whole self.old.rest.now) self.old self.new }
    {
        let count = self.byte(0, MOST_ITEMS as u8)?;
        let items = self.read_each(alloc, count)?;
        Ok(Reads::new(items))
    }

    #[tactic(auto, unfolding(crate::specs::Items::write_at))]
    fn write(&mut self, alloc: Global, before: &[WriteItem]) -> Result<WriteItem, DecodeFault>
        ensures { Takes result (write_at self.old.whole before.now self.old.rest.now) self.old self.new }
    {
        let key = self.key(alloc, before)?;
        let value = self.value(alloc)?;
        let over = self.version()?;
        Ok(WriteItem { key, value, over })
    }

    fn write_each(&mut self, alloc: Global, count: u8) -> Result<Vec<WriteItem>, DecodeFault>
        ensures { TakesAs (λ v. v.items) result (each_after (write_at self.old.whole) count [] self.old.rest.now) self.old self.new }
    {
        let mut items = Vec::with_capacity(alloc, count as usize)?;
        for _ in 0..count {
            let item = self.write(alloc, items.as_slice())?;
            items.push(item)?;
        }
        Ok(items)
    }

    #[tactic(auto, unfolding(crate::specs::Items::writes_at))]
    fn writes(&mut self, alloc: Global) -> Result<Writes, DecodeFault>
        ensures { Takes result (writes_at self.old.whole self.old.rest.now) self.old self.new }
    {
        let count = self.byte(0, MOST_ITEMS as u8)?;
        let items = self.write_each(alloc, count)?;
        Ok(Writes::new(items))
    }

    #[tactic(auto, unfolding(crate::specs::Records::prepare_behind))]
    fn prepare_of(&mut self, alloc: Global, id: TxnId) -> Result<Prepare, DecodeFault>
        ensures { Takes result (prepare_behind id self.old.whole self.old.rest.now) self.old self.new }
    {
        let reads = self.reads(alloc)?;
        let writes = self.writes(alloc)?;
        Ok(Prepare::of(id, reads, writes))
    }

    #[tactic(auto, unfolding(crate::specs::Records::prepare_at))]
    fn prepare(&mut self, alloc: Global, count: u8) -> Result<Record, DecodeFault>
        requires { count ≤ most_sites }
        ensures { Takes result (prepare_at count self.old.whole self.old.rest.now) self.old self.new }
    {
        let id = self.id(count)?;
        let prepare = self.prepare_of(alloc, id)?;
        Ok(Record::Prepare(prepare))
    }

    /// A time above that of an id.
    #[tactic(auto, unfolding(crate::specs::Records::end_at))]
    fn end(&mut self, id: &TxnId) -> Result<Time, DecodeFault>
        ensures { Takes result (end_at id.now self.old.whole self.old.rest.now) self.old self.new }
    {
        let least = id.time.half_micros().saturating_add(1);
        let time = self.long(least, LAST_TIME)?;
        Ok(Time::of(time))
    }

    #[tactic(auto, unfolding(crate::specs::Records::commit_at))]
    fn commit(&mut self, count: u8) -> Result<Record, DecodeFault>
        requires { count ≤ most_sites }
        ensures { Takes result (commit_at count self.old.whole self.old.rest.now) self.old self.new }
    {
        let id = self.id(count)?;
        let time = self.end(&id)?;
        Ok(Record::Commit { id, time })
    }

    #[tactic(auto, unfolding(crate::specs::Records::abort_at))]
    fn abort(&mut self, count: u8) -> Result<Record, DecodeFault>
        requires { count ≤ most_sites }
        ensures { Takes result (abort_at count self.old.whole self.old.rest.now) self.old self.new }
    {
        let id = self.id(count)?;
        let time = self.end(&id)?;
        let cause = self.id(count)?;
        Ok(Record::Abort { id, time, cause })
    }

    /// A record of a log of so many sites.
    #[tactic(auto, unfolding(crate::specs::Records::record_at))]
    pub(crate) fn record(&mut self, alloc: Global, count: u8) -> Result<Record, DecodeFault>
        requires { count ≤ most_sites }
        ensures { Takes result (record_at count self.old.whole self.old.rest.now) self.old self.new }
    {
        let tag = self.byte(1, 3)?;
        if tag == 1 {
            self.prepare(alloc, count)
        } else if tag == 2 {
            self.commit(count)
        } else {
            self.abort(count)
        }
    }
}

/// The record of a log of so many sites that begins the input, and the length of its spelling in bytes.
pub fn decode_record(alloc: Global, input: &[u8], count: u8) -> Result<(Record, usize), DecodeFault>
    requires { count ≤ most_sites }
    ensures { Decodes input.now result (record_at count (length input.now) input.now) }
{
    let mut decoder = Decoder::new(input);
    let record = decoder.record(alloc, count)?;
    Ok((record, decoder.place()))
}
