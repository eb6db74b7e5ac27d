ghost use Rattle.std.specs.Prelude.{◌≡◌, ◌∷◌, [], Some};
ghost use Rattle.outside_io.specs.Clock.{GaveTold, later_readings, next_reading};

use crate::Clock;
use std::marker::Model;

/// A clock that gives the readings of a list, in order, and stays at the last one; 0 where there is none.
#[derive(Drop)]
pub struct ListClock {
    readings: Vec<u64>,
    at: usize,
}

impl Model for ListClock {
    ghost use Rattle.std.specs.Prelude.{ℕ, List, drop};

    ghost Value = { List ℕ };

    ghost view = { λ c. drop c.at c.readings.items };
}

impl ListClock {
    pub fn new(readings: Vec<u64>) -> ListClock
        ensures { result ≡ readings.items }
    {
        ListClock { readings, at: 0 }
    }
}

impl Clock for ListClock {
    ghost seen = { λ c. record { readings = Some c } };

    #[tactic(auto, using(crate::proofs::Turns::reading_goes_on, crate::proofs::Turns::reading_stays, crate::proofs::Turns::no_reading))]
    fn now(&mut self) -> u64
        ensures reading { result ≡ next_reading self.old }
        ensures after { self.new ≡ later_readings self.old }
        ensures gave { GaveTold (Some self.old) (Some self.new) (result ∷ []) }
    {
        if self.at >= self.readings.len() {
            return 0;
        }
        let reading = self.readings[self.at];
        if self.readings.len() - self.at > 1 {
            self.at += 1;
        }
        reading
    }
}
