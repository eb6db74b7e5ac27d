ghost use Rattle.std.specs.Prelude.{◌≡◌, ℕ, ◌/◌, ◌-◌, ◌^◌, ◌∷◌, [], List, None, min};
ghost use Rattle.std.specs.Duration.{as_nanos};
ghost use Rattle.outside_io.specs.Clock.{GaveTold};

use crate::Clock;
use std::time;
use std::time::{Duration, SystemTime, UNIX_EPOCH};

/// The nanoseconds of half a microsecond.
const HALF_MICROSECOND: u128 = 500;

/// The system's clock. It does not tell its readings.
#[derive(Drop)]
pub struct SystemClock<'a, R: time::Clock> {
    rt: &'a R,
}

impl<'a, R: time::Clock> SystemClock<'a, R> {
    /// The clock of this runtime.
    pub fn over(rt: &'a R) -> SystemClock<'a, R>
        ensures { result.rt.now ≡ rt.now }
    {
        SystemClock { rt }
    }
}

impl<'a, R: time::Clock> Clock for SystemClock<'a, R> {
    ghost seen = { λ _. record { readings = None } };

    /// The half microseconds since 1970; 0 where the system gives no time, or one before 1970.
    fn now(&mut self) -> u64
        ensures { GaveTold None None (result ∷ []) }
    {
        match SystemTime::now(self.rt) {
            Ok(time) => match time.duration_since(UNIX_EPOCH) {
                Ok(since) => half_micros(since),
                Err(_) => 0,
            },
            Err(_) => 0,
        }
    }
}

/// The whole half microseconds of a time, or the last number that a `u64` can be.
fn half_micros(time: Duration) -> u64
    ensures { result ≡ min (as_nanos time / 500) (2 ^ 64 - 1) }
{
    u64::try_from(time.as_nanos() / HALF_MICROSECOND).unwrap_or(u64::MAX)
}
