//! The table of times of a site: up to when each site knows each other one, as far as this site knows.
#![tactic(auto)]

ghost use Rattle.std.specs.Prelude.{◌≡◌, ◌+◌, ◌*◌, ◌/◌, ◌%◌, ◌<◌, IfOk, length, max, nat_le, slice_set};
ghost use Rattle.std.specs.List.{list_all, range_with_len};
ghost use Rattle.helios_model.specs.Exchange.{merged_at};
ghost use Rattle.time_table.specs.Table.{first_table, merged_with, raised, time_at};

use helios_model::{SiteId, Time, Times};
use std::alloc::{AllocError, Global};
use std::marker::Model;

/// For each pair of sites a time, in half microseconds: up to when the site of the row knows that of the column.
#[derive(Drop)]
pub struct TimeTable {
    count: u8,
    times: Times,
}

impl Model for TimeTable {
    ghost use Rattle.std.specs.Prelude.{◌≡◌, ◌*◌, length};
    ghost use Rattle.time_table.specs.Table.{TableData};

    ghost Value = { TableData };

    ghost view = { λ t. record { count = t.count; times = t.times } };

    ghost invariant = { λ t. length t.times ≡ t.count * t.count };
}

impl TimeTable {
    /// The table of so many sites in which each time is 0.
    pub fn new(alloc: Global, count: u8) -> Result<TimeTable, AllocError>
        ensures { IfOk result (λ t. t ≡ first_table count) }
    {
        let size = count as usize * count as usize;
        let times = Times::new(vec![in alloc; 0; size]?);
        Ok(TimeTable { count, times })
    }

    /// The number of sites.
    pub fn count(&self) -> u8
        ensures value { result ≡ self.now.count }
        ensures square { length self.now.times ≡ self.now.count * self.now.count }
    {
        let _ = &self.times;
        self.count
    }

    fn place(&self, row: SiteId, column: SiteId) -> usize
        requires row { row < self.now.count }
        requires column { column < self.now.count }
        ensures value { result ≡ row * self.now.count + column }
        ensures within { result < length self.now.times }
    {
        let _ = &self.times;
        row.number() as usize * self.count as usize + column.number() as usize
    }

    /// The time in a row and a column, in half microseconds.
    pub fn get(&self, row: SiteId, column: SiteId) -> Time
        requires row { row < self.now.count }
        requires column { column < self.now.count }
        ensures { result ≡ time_at self.now row column }
    {
        Time::of(self.times.items()[self.place(row, column)])
    }

    /// Whether every site is known to know the origin up to this time. It ends at the first that is not.
    pub fn all_know(&self, origin: SiteId, time: Time) -> bool
        requires { origin < self.now.count }
        ensures { result ≡ list_all (λ j. nat_le time (time_at self.now j origin)) (range_with_len 0 self.now.count) }
    {
        (0..self.count).all(|j| self.knows(j, origin, time))
    }

    fn knows(&self, row: u8, origin: SiteId, time: Time) -> bool
        requires row { row < self.now.count }
        requires origin { origin < self.now.count }
        ensures { result ≡ nat_le time (time_at self.now row origin) }
    {
        let place = row as usize * self.count as usize + origin.number() as usize;
        time.half_micros() <= self.times.items()[place]
    }

    /// Takes the greater of a time and the one that stands there.
    pub fn raise(&mut self, row: SiteId, column: SiteId, to: Time)
        requires row { row < self.old.count }
        requires column { column < self.old.count }
        ensures value { self.new ≡ raised self.old row column to }
        ensures there { time_at self.new row column ≡ max (time_at self.old row column) to }
    {
        let place = self.place(row, column);
        let known = self.times.items()[place];
        self.set(place, known.max(to.half_micros()));
    }

    /// Takes a message's table and cover in: the own row takes the greater of itself and the cover, but not at the
    /// site itself, and every other row takes the greater of itself and the message's.
    pub fn merge(&mut self, own: SiteId, table: &Times, cover: &Times)
        requires own { own < self.old.count }
        requires square { length table.now ≡ self.old.count * self.old.count }
        requires one_row { length cover.now ≡ self.old.count }
        ensures value { self.new ≡ merged_with self.old own table.now cover.now }
        ensures home { time_at self.new own own ≡ time_at self.old own own }
    {
        let count = self.count() as usize;
        for place in 0..count * count {
            let time = self.merged_time(own, table.items(), cover.items(), place);
            self.set(place, time);
        }
    }

    fn set(&mut self, place: usize, time: u64)
        requires { place < self.old.count * self.old.count }
        ensures { self.new ≡ record { count = self.old.count; times = slice_set self.old.times place time } }
    {
        self.times.set(place, time);
    }

    fn merged_time(&self, own: SiteId, theirs: &[u64], cover: &[u64], place: usize) -> u64
        requires square { length theirs.now ≡ self.now.count * self.now.count }
        requires one_row { length cover.now ≡ self.now.count }
        requires within { place < length theirs.now }
        ensures { result ≡ merged_at self.now.count own self.now.times theirs.now cover.now (place / self.now.count) (place % self.now.count) }
    {
        let count = self.count as usize;
        let (row, column) = (place / count, place % count);
        let known = self.times.items()[place];
        if row != own.number() as usize {
            known.max(theirs[place])
        } else if column == own.number() as usize {
            known
        } else {
            known.max(cover[column])
        }
    }

    /// The times, row after row, in half microseconds.
    pub fn grid(&self) -> &Times
        ensures { result.now ≡ self.now.times }
    {
        &self.times
    }
}
