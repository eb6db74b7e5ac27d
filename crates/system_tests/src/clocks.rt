use outside_io::*;
use std::io::ErrorKind;
use std::test::Fail;
use std::time::Duration;
use std::{io, time};

#[test]
fn a_clock_of_a_list_stays_at_its_last_reading(rt: HostRuntime) -> Result<(), Fail> {
    let alloc = rt.alloc();
    let mut clock = ListClock::new(vec![in alloc; 7, 3, 9]?);
    for reading in [7, 3, 9, 9, 9] {
        assert_eq!(rt; clock.now(), reading);
    }
    assert_eq!(rt; ListClock::new(Vec::new(alloc)).now(), 0);
    Ok(())
}

#[test]
fn the_system_s_clock_goes_on(rt: HostRuntime) {
    let mut clock = SystemClock::over(&rt);
    let first = clock.now();
    let second = clock.now();
    assert!(rt; first > 2_000_000 * 1_700_000_000);
    assert!(rt; second >= first);
}

/// A clock that stands still, or tells no time.
#[derive(Drop)]
struct Stopped(Option<Duration>);

impl time::Clock for Stopped {
    fn monotonic(&self) -> io::Result<Duration> {
        Err(ErrorKind::Unsupported.into())
    }

    fn since_1970(&self) -> io::Result<Duration> {
        match self.0 {
            Some(time) => Ok(time),
            None => Err(ErrorKind::InvalidData.into()),
        }
    }
}

#[test]
fn a_reading_is_in_half_microseconds(rt: HostRuntime) {
    for (time, reading) in [
        (Some(Duration::new(3, 1_999)), 6_000_003),
        (Some(Duration::new(0, 499)), 0),
        (Some(Duration::from_secs(1 << 62)), u64::MAX),
        (Some(Duration::from_secs(u64::MAX)), 0),
        (None, 0),
    ] {
        assert_eq!(rt; SystemClock::over(&Stopped(time)).now(), reading);
    }
}
