// The records of one origin, by the numbers under which they are kept, in the order of their arrival.
ghost use Rattle.std.specs.Prelude.{◌≡◌, ◌<◌, [], ◌∷◌, ◌++◌, ◌+◌, ◌-◌, ◌^◌, true, not, OnOk, OnErr, length, filter, take, drop};
ghost use Rattle.log_exchange.specs.Runs.{IsNextDue, IsUpTo, TimesRise, first_stamp, is_first_passed, is_known};

use helios_model::{SiteId, Time};
use std::alloc::{AllocError, Global};
use std::collections::VecDeque;
use std::marker::Model;
use time_table::TimeTable;

// A record's number, and when its origin made it, in half microseconds.
#[derive(Clone, Copy, Debug)]
pub(crate) struct Stamp {
    pub(crate) arrival: u64,
    pub(crate) time: u64,
}

#[derive(Drop)]
pub(crate) struct Run {
    stamps: VecDeque<Stamp>,
    rising: bool,
    latest: u64,
}

impl Model for Run {
    ghost use Rattle.std.specs.Prelude.{List};
    ghost use Rattle.log_exchange.specs.declared.run.Stamp.{Stamp};
    ghost use Rattle.log_exchange.specs.Runs.{IsRun};

    ghost Value = { List Stamp };

    ghost view = { λ r. r.stamps.items };

    ghost invariant = { λ r. IsRun r.stamps.items r.rising r.latest };
}

impl Run {
    pub(crate) fn new(alloc: Global) -> Run
        ensures { result ≡ [] }
    {
        Run {
            stamps: VecDeque::new(alloc),
            rising: true,
            latest: 0,
        }
    }

    pub(crate) fn first(&self) -> Option<Stamp>
        ensures { result ≡ first_stamp self.now }
    {
        self.stamps.front().copied()
    }

    // Whether the times are known never to fall.
    pub(crate) fn rises(&self) -> bool
        ensures { result ≡ true → TimesRise self.now }
    {
        self.rising
    }

    // Whether the times never fall, with this one behind them.
    fn goes_on_rising(&self, time: u64) -> bool
        ensures up_to { result ≡ true → IsUpTo time self.now }
        ensures rises { result ≡ true → TimesRise self.now }
    {
        self.stamps.is_empty() || (self.rising && self.latest <= time)
    }

    pub(crate) fn push(&mut self, arrival: u64, time: u64) -> Result<(), AllocError>
        ensures pushed { OnOk result (self.new ≡ self.old ++ record { arrival = arrival; time = time } ∷ []) }
        ensures as_before { OnErr result (self.new ≡ self.old) }
    {
        let rising = self.goes_on_rising(time);
        self.stamps.push_back(Stamp { arrival, time })?;
        self.latest = if rising { time } else { self.latest.max(time) };
        self.rising = rising;
        Ok(())
    }

    pub(crate) fn take_back(&mut self)
        ensures { self.new ≡ take (length self.old - 1) self.old }
    {
        let _ = self.stamps.pop_back();
    }

    pub(crate) fn pop(&mut self) -> Option<Stamp>
        ensures first { result ≡ first_stamp self.old }
        ensures rest { self.new ≡ drop 1 self.old }
    {
        self.stamps.pop_front()
    }

    // Lets each go up to which every site is known to know the origin.
    pub(crate) fn drop_known(&mut self, origin: SiteId, t: &TimeTable)
        requires { origin < t.now.count }
        ensures { self.new ≡ filter (λ s. not (is_known t.now.count t.now.times origin s.time)) self.old }
    {
        self.stamps
            .retain(|stamp| !t.all_know(origin, Time::of(stamp.time)));
    }

    pub(crate) fn at(&self, place: usize) -> Option<Stamp>
        ensures { result ≡ first_stamp (drop place self.now) }
    {
        self.stamps.get(place).copied()
    }

    // The place of the first whose time is above this one, or the end.
    pub(crate) fn first_due(&self, known: u64) -> usize
        ensures { IsNextDue known self.now 0 result }
    {
        if self.rising {
            self.stamps.partition_point(|stamp| stamp.time <= known)
        } else {
            self.next_due(0, known)
        }
    }

    // The same, behind a place.
    pub(crate) fn due_after(&self, place: usize, known: u64) -> usize
        requires { place < length self.now }
        ensures { IsNextDue known self.now (place + 1) result }
    {
        let _ = self.stamps.len();
        self.next_due(place + 1, known)
    }

    // The same, from a place on.
    fn next_due(&self, from: usize, known: u64) -> usize
        ensures { IsNextDue known self.now from result }
    {
        let mut place = from;
        while self.is_passed(place, known) {
            place += 1;
        }
        place
    }

    fn is_passed(&self, place: usize, known: u64) -> bool
        ensures value { result ≡ is_first_passed known (drop place self.now) }
        ensures within { result ≡ true → place < length self.now }
        ensures few { length self.now < 2 ^ 63 }
    {
        let _ = self.stamps.len();
        match self.at(place) {
            Some(stamp) => stamp.time <= known,
            None => false,
        }
    }
}
