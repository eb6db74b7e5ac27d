//! When each origin made the last of some records.
ghost use Rattle.std.specs.Prelude.{◌≡◌, [], ◌∷◌, ◌++◌, List, true};
ghost use Rattle.helios_model.specs.declared.records.Record.{Record};
ghost use Rattle.helios_model.specs.Log.{origin, own_time};
ghost use Rattle.log_records.specs.Messages.{AreLatest, is_later};

use helios_model::{Record, SiteId, Time};

/// For each site the own time of its last record, where there is one, in half microseconds.
#[derive(Drop)]
pub(crate) struct Latest {
    times: [Option<u64>; 32],
}

impl Latest {
    /// Those of no record.
    pub(crate) fn new() -> Latest
        ensures { AreLatest [] result.times }
    {
        Latest { times: [None; 32] }
    }

    /// Whether a time is above the own times of the records of this origin.
    pub(crate) fn is_below(&self, site: SiteId, time: Time) -> bool
        ensures { (before : List Record) → AreLatest before self.now.times → result ≡ is_later before site time }
    {
        match self.times[site.number() as usize] {
            Some(last) => last < time.half_micros(),
            None => true,
        }
    }

    /// Those of the records with one more behind them, which is later than each of its origin.
    pub(crate) fn note(&mut self, r: &Record)
        ensures { (before : List Record) → AreLatest before self.old.times → is_later before (origin r.now) (own_time r.now) ≡ true → AreLatest (before ++ r.now ∷ []) self.new.times }
    {
        let site = r.origin();
        self.times[site.number() as usize] = Some(r.own_time().half_micros());
    }
}
