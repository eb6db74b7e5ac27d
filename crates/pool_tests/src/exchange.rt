ghost use Rattle.std.specs.Prelude.{◌≡◌, ◌<◌, IfOk};

use helios_model::{Record, SiteId, Time, TxnId};
use log_exchange::ExchangeLog;
use std::alloc::Global;
use std::test::Fail;
use time_table::TimeTable;

fn site(number: u8) -> Result<SiteId, Fail> {
    Ok(SiteId::new(number).ok_or("a site")?)
}

/// A Commit that a site made.
fn commit(of: u8, time: u64) -> Result<Record, Fail> {
    let id = TxnId {
        site: site(of)?,
        time: Time::of(1),
    };
    Ok(Record::Commit {
        id,
        time: Time::of(time),
    })
}

/// A log of site 0 of two, with a record of each of these times that this site made.
fn log_of(alloc: Global, of: u8, times: &[u64]) -> Result<ExchangeLog, Fail>
    ensures { IfOk result (λ log. log.count ≡ 2) }
{
    let mut log = ExchangeLog::new(alloc, 2, SiteId::of(0))?;
    for time in times {
        let r = commit(of, *time)?;
        if r.origin().number() < 2 {
            log.append(r)?;
        }
    }
    Ok(log)
}

/// A table of two sites, by up to when each knows the first.
fn table(alloc: Global, first: u64, other: u64) -> Result<TimeTable, Fail>
    ensures { IfOk result (λ t. t.count ≡ 2) }
{
    let mut t = TimeTable::new(alloc, 2)?;
    t.raise(SiteId::of(0), SiteId::of(0), Time::of(first));
    t.raise(SiteId::of(1), SiteId::of(0), Time::of(other));
    Ok(t)
}

/// What a log of site 0 keeps and is to send to site 1.
#[derive(Debug, Drop, PartialEq)]
struct Due {
    retained: usize,
    times: Vec<Time>,
    cover: Vec<u64>,
}

/// What the log has to send by a table, once what the table tells that each site has was dropped.
fn sends(alloc: Global, log: &mut ExchangeLog, first: u64, other: u64) -> Result<Due, Fail>
    requires { log.old.count ≡ 2 }
    ensures { IfOk result (λ _. log.new.count ≡ 2) }
{
    let t = table(alloc, first, other)?;
    log.drop_known(&t);
    let (records, cover) = log.select(SiteId::of(1), &t)?;
    Ok(Due {
        retained: log.retained(),
        times: records.items().iter().map(|r| r.own_time()).collect(alloc)?,
        cover: cover.items().to_vec(alloc)?,
    })
}

/// So many records are kept, and the message has these times and covers site 0 up to this one.
fn kept(alloc: Global, retained: usize, times: &[u64], cover: u64) -> Result<Due, Fail> {
    Ok(Due {
        retained,
        times: times.iter().map(|time| Time::of(*time)).collect(alloc)?,
        cover: vec![in alloc; cover, 0]?,
    })
}

/// The times from one to another, both among them.
fn from_to(alloc: Global, first: u64, last: u64) -> Result<Vec<u64>, Fail>
    requires { last < 100 }
{
    let mut times = Vec::new(alloc);
    for time in first..last + 1 {
        times.push(time)?;
    }
    Ok(times)
}

#[test]
fn a_record_is_kept_until_each_site_has_it(rt: HostRuntime) -> Result<(), Fail> {
    let alloc = rt.alloc();
    let mut log = log_of(alloc, 0, &[5, 9])?;
    let seen = [sends(alloc, &mut log, 9, 5)?, sends(alloc, &mut log, 9, 9)?];
    let wanted = [kept(alloc, 1, &[9], 9)?, kept(alloc, 0, &[], 9)?];
    assert_eq!(rt; seen, wanted);
    Ok(())
}

#[test]
fn a_message_is_cut_before_the_first_that_is_left_off(rt: HostRuntime) -> Result<(), Fail> {
    let alloc = rt.alloc();
    let mut log = log_of(alloc, 0, &from_to(alloc, 1, 70)?)?;
    let seen = [
        sends(alloc, &mut log, 70, 0)?,
        sends(alloc, &mut log, 70, 6)?,
    ];
    let wanted = [
        kept(alloc, 70, &from_to(alloc, 1, 64)?, 64)?,
        kept(alloc, 64, &from_to(alloc, 7, 70)?, 70)?,
    ];
    assert_eq!(rt; seen, wanted);
    Ok(())
}

#[test]
fn times_that_fall_are_told_and_dropped_each(rt: HostRuntime) -> Result<(), Fail> {
    let alloc = rt.alloc();
    let mut log = log_of(alloc, 0, &[9, 5, 7])?;
    let seen = [
        sends(alloc, &mut log, 9, 6)?,
        sends(alloc, &mut log, 9, 8)?,
        sends(alloc, &mut log, 9, 9)?,
    ];
    let wanted = [
        kept(alloc, 2, &[9, 7], 9)?,
        kept(alloc, 1, &[9], 9)?,
        kept(alloc, 0, &[], 9)?,
    ];
    assert_eq!(rt; seen, wanted);
    Ok(())
}
