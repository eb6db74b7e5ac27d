// The table of times and the exchange log, each call once.
ghost use Rattle.std.specs.Prelude.{◌<◌};
ghost use Rattle.helios_model.specs.Log.{origin};

use helios_model::{Record, SiteId, Time, Times, TxnId};
use log_exchange::ExchangeLog;
use std::alloc::Global;
use std::test::Fail;
use time_table::TimeTable;

/// A time that was raised twice, the times of a table that took in a message, and how many sites it has.
fn merged(alloc: Global) -> Result<(Time, Vec<u64>, u8), Fail> {
    let (first, second) = (SiteId::of(0), SiteId::of(1));
    let mut table = TimeTable::new(alloc, 2)?;
    table.raise(first, second, Time::of(5));
    table.raise(first, second, Time::of(4));
    let raised = table.get(first, second);
    let theirs = Times::new(vec![in alloc; 9, 9, 7, 8]?);
    let cover = Times::new(vec![in alloc; 9, 6]?);
    table.merge(first, &theirs, &cover);
    Ok((raised, table.grid().items().to_vec(alloc)?, table.count()))
}

#[test]
fn a_table_takes_the_greater_times(rt: HostRuntime) -> Result<(), Fail> {
    let alloc = rt.alloc();
    let wanted = (Time::of(5), vec![in alloc; 0, 6, 7, 8]?, 2);
    assert_eq!(rt; merged(alloc)?, wanted);
    Ok(())
}

/// The Commit of a site's transaction of time 1, at this time.
fn commit(site: u8, time: u64) -> Record
    requires { site < 2 }
    ensures { origin result < 2 }
{
    Record::Commit {
        id: TxnId {
            site: SiteId::of(site),
            time: Time::of(1),
        },
        time: Time::of(time),
    }
}

/// The own times of what is due to the other site, its cover, and how many records are kept.
fn due(alloc: Global) -> Result<(Vec<Time>, Vec<u64>, usize), Fail> {
    let (first, second) = (SiteId::of(0), SiteId::of(1));
    let mut log = ExchangeLog::new(alloc, 2, first)?;
    log.append(commit(0, 3))?;
    log.append(commit(1, 4))?;
    log.append(commit(0, 5))?;
    let mut table = TimeTable::new(alloc, 2)?;
    table.raise(first, first, Time::of(6));
    table.raise(first, second, Time::of(4));
    table.raise(second, first, Time::of(3));
    let (records, cover) = log.select(second, &table)?;
    let times = records.items().iter().map(|r| r.own_time()).collect(alloc)?;
    Ok((times, cover.items().to_vec(alloc)?, log.retained()))
}

#[test]
fn a_log_sends_what_is_due(rt: HostRuntime) -> Result<(), Fail> {
    let alloc = rt.alloc();
    let times = vec![in alloc; Time::of(4), Time::of(5)]?;
    let wanted = (times, vec![in alloc; 6, 4]?, 3);
    assert_eq!(rt; due(alloc)?, wanted);
    Ok(())
}
