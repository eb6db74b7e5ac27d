//! The log from which a site's messages are taken.
ghost use Rattle.std.specs.Prelude.{◌≡◌, ◌<◌, IfOk, OnErr, OnOk, length};
ghost use Rattle.helios_model.specs.Log.{origin};
ghost use Rattle.helios_model.specs.Exchange.{sent_records};
ghost use Rattle.time_table.specs.Table.{time_at};
ghost use Rattle.log_exchange.specs.Kept.{AreOf, appended, cover_of, first_log, with_needed};

use crate::backlog::Backlog;
use crate::selection::{cover, take_due};
use helios_model::{Record, Records, SiteId, Times};
use std::alloc::{AllocError, Global};
use std::marker::Model;
use time_table::TimeTable;

/// The records of a site's log, in its order, for the messages to the other sites.
#[derive(Drop)]
pub struct ExchangeLog {
    site: SiteId,
    backlog: Backlog,
    alloc: Global,
}

impl Model for ExchangeLog {
    ghost use Rattle.std.specs.Prelude.{◌<◌};
    ghost use Rattle.std.specs.Map.{values_of};
    ghost use Rattle.log_exchange.specs.Kept.{LogData};

    ghost Value = { LogData };

    ghost view = { λ l. record { count = l.backlog.count; site = l.site; records = values_of l.backlog.entries } };

    ghost invariant = { λ l. l.site < l.backlog.count };
}

impl ExchangeLog {
    /// The empty log of a site, of so many sites.
    pub fn new(alloc: Global, count: u8, site: SiteId) -> Result<ExchangeLog, AllocError>
        requires { site < count }
        ensures { IfOk result (λ l. l ≡ first_log count site) }
    {
        Ok(ExchangeLog {
            site,
            backlog: Backlog::new(alloc, count)?,
            alloc,
        })
    }

    /// The site whose log it is.
    pub fn site(&self) -> SiteId
        ensures value { result ≡ self.now.site }
        ensures here { self.now.site < self.now.count }
    {
        self.site
    }

    /// How many records are kept.
    pub fn retained(&self) -> usize
        ensures number { result ≡ length self.now.records }
        ensures origins { AreOf self.now.count self.now.records }
    {
        self.backlog.len()
    }

    /// Appends a record of one of the sites. After want of memory the log is as it was, and the record is dropped.
    pub fn append(&mut self, r: Record) -> Result<(), AllocError>
        requires { origin r < self.old.count }
        ensures ok { OnOk result (self.new ≡ appended self.old r) }
        ensures err { OnErr result (self.new ≡ self.old) }
    {
        self.backlog.push(r)
    }

    /// What a message to another site tells, by the table of this one: the first of the records that the other site is
    /// not known to have, and up to when it tells of each site, in half microseconds.
    pub fn select(&self, to: SiteId, t: &TimeTable) -> Result<(Records, Times), AllocError>
        requires count { t.now.count ≡ self.now.count }
        requires to { to < self.now.count }
        ensures records { IfOk result (λ m. m.0 ≡ sent_records (time_at t.now to) self.now.records) }
        ensures cover { IfOk result (λ m. m.1 ≡ cover_of self.now.count (time_at t.now self.now.site) (time_at t.now to) self.now.records) }
    {
        let taken = take_due(self.alloc, &self.backlog, t, to)?;
        let cover = cover(self.alloc, &self.backlog, &taken.heads, t, self.site)?;
        Ok((Records::new(taken.records), Times::new(cover)))
    }

    /// Lets each record go that every site is known to have, and keeps the others in their order. It takes no memory.
    pub fn drop_known(&mut self, t: &TimeTable)
        requires count { t.now.count ≡ self.old.count }
        ensures { self.new ≡ with_needed self.old t.now.times }
    {
        self.backlog.drop_known(t);
    }
}
