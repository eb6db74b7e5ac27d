// Which records are due to a site, and what a message of them covers.
ghost use Rattle.std.specs.Prelude.{◌≡◌, ◌<◌, IfOk, OnOk, [], ◌++◌, length, map, slice_index};
ghost use Rattle.std.specs.List.{cons_option, range_with_len};
ghost use Rattle.time_table.specs.Table.{time_at};
ghost use Rattle.log_exchange.specs.Heads.{HasGoneOn, IsFilled, IsLeast, IsNextHead, IsStarted, covered_to, earlier_of, head_of};
ghost use Rattle.log_exchange.specs.Runs.{record_under, run_of};

use crate::backlog::Backlog;
use crate::run::Stamp;
use helios_model::{MOST_RECORDS, Record, SiteId};
use std::alloc::{AllocError, Global};
use time_table::TimeTable;

// The next record of an origin.
#[derive(Clone, Copy, Debug)]
struct Head {
    site: u8,
    arrival: u64,
}

// Up to when a site is known to know another one, in half microseconds.
fn known(t: &TimeTable, row: SiteId, k: u8) -> u64
    requires row { row < t.now.count }
    requires column { k < t.now.count }
    ensures { result ≡ time_at t.now row k }
{
    let count = t.count() as usize;
    t.grid().items()[row.number() as usize * count + k as usize]
}

fn head_at(backlog: &Backlog, heads: &[usize], k: u8) -> Option<Stamp>
    requires sized { length heads.now ≡ backlog.now.count }
    requires origin { k < backlog.now.count }
    ensures { result ≡ head_of backlog.now heads.now k }
{
    backlog.at(k, heads[k as usize])
}

// The one that comes first, of the best so far and one more.
fn earlier(best: Option<Head>, site: u8, next: Option<Stamp>) -> Option<Head>
    ensures { result ≡ earlier_of best site next }
{
    let Some(stamp) = next else {
        return best;
    };
    let arrival = stamp.arrival;
    match best {
        Some(head) if head.arrival <= arrival => Some(head),
        _ => Some(Head { site, arrival }),
    }
}

// The head whose record comes first.
fn earliest(backlog: &Backlog, heads: &[usize]) -> Option<Head>
    requires { length heads.now ≡ backlog.now.count }
    ensures { IsLeast backlog.now heads.now backlog.now.count result }
{
    let mut best = None;
    for k in 0..backlog.count() {
        best = earlier(best, k, head_at(backlog, heads, k));
    }
    best
}

// The same, where a message with so many records has room for one more.
fn next_head(backlog: &Backlog, heads: &[usize], taken: usize) -> Option<Head>
    requires { length heads.now ≡ backlog.now.count }
    ensures { IsNextHead backlog.now heads.now taken result }
{
    if taken < MOST_RECORDS {
        earliest(backlog, heads)
    } else {
        None
    }
}

fn take_record(backlog: &Backlog, records: &mut Vec<Record>, arrival: u64) -> Result<(), AllocError>
    ensures { OnOk result (records.new.items ≡ records.old.items ++ cons_option (record_under backlog.now.entries arrival) []) }
{
    match backlog.record(arrival) {
        Some(r) => {
            records.push(r.copy()?)?;
            Ok(())
        }
        None => Ok(()),
    }
}

fn go_on(backlog: &Backlog, heads: &mut Vec<usize>, site: u8, known: u64)
    requires sized { length heads.old.items ≡ backlog.now.count }
    requires origin { site < backlog.now.count }
    requires there { slice_index heads.old.items site < length (run_of site backlog.now.entries) }
    ensures { HasGoneOn backlog.now known heads.old.items heads.new.items site }
{
    let place = heads[site as usize];
    heads[site as usize] = backlog.due_after(site, place, known);
}

// The heads at which a message to a site begins.
fn first_heads(
    alloc: Global,
    backlog: &Backlog,
    t: &TimeTable,
    to: SiteId,
) -> Result<Vec<usize>, AllocError>
    requires count { t.now.count ≡ backlog.now.count }
    requires to { to < backlog.now.count }
    ensures { IfOk result (λ heads. IsStarted backlog.now (time_at t.now to) heads.items backlog.now.count) }
{
    let mut heads = Vec::with_capacity(alloc, backlog.count() as usize)?;
    for k in 0..backlog.count() {
        heads.push(backlog.first_due(k, known(t, to, k)))?;
    }
    Ok(heads)
}

// What a message takes, and the heads that it leaves.
#[derive(Drop)]
pub(crate) struct Taken {
    pub(crate) records: Vec<Record>,
    pub(crate) heads: Vec<usize>,
}

// The first of the records that a site is not known to have.
pub(crate) fn take_due(
    alloc: Global,
    backlog: &Backlog,
    t: &TimeTable,
    to: SiteId,
) -> Result<Taken, AllocError>
    requires count { t.now.count ≡ backlog.now.count }
    requires to { to < backlog.now.count }
    ensures { IfOk result (λ taken. IsFilled backlog.now (time_at t.now to) taken.records.items taken.heads.items) }
{
    backlog.is_line();
    let mut heads = first_heads(alloc, backlog, t, to)?;
    let mut records = Vec::new(alloc);
    while let Some(head) = next_head(backlog, &heads, records.len()) {
        take_record(backlog, &mut records, head.arrival)?;
        go_on(backlog, &mut heads, head.site, known(t, to, head.site));
    }
    Ok(Taken { records, heads })
}

// The earlier of what the sender knows and what comes just before the first record that was left off, in half
// microseconds.
fn covered(known: u64, left: Option<Stamp>) -> u64
    ensures { result ≡ covered_to known left }
{
    match left {
        Some(stamp) => stamp.time.saturating_sub(1),
        None => known,
    }
}

// Up to when a message tells of each site, by the heads that it leaves.
pub(crate) fn cover(
    alloc: Global,
    backlog: &Backlog,
    heads: &[usize],
    t: &TimeTable,
    own: SiteId,
) -> Result<Vec<u64>, AllocError>
    requires count { t.now.count ≡ backlog.now.count }
    requires own { own < backlog.now.count }
    requires sized { length heads.now ≡ backlog.now.count }
    ensures { IfOk result (λ told. told.items ≡ map (λ k. covered_to (time_at t.now own k) (head_of backlog.now heads.now k)) (range_with_len 0 backlog.now.count)) }
{
    let mut told = Vec::with_capacity(alloc, backlog.count() as usize)?;
    for k in 0..backlog.count() {
        told.push(covered(known(t, own, k), head_at(backlog, heads, k)))?;
    }
    Ok(told)
}
