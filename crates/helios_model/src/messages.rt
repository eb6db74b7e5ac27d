//! What a site sends to another one.
ghost use Rattle.std.specs.Prelude.{◌≡◌, IfOk};

use crate::ids::SiteId;
use crate::numbers::Times;
use crate::records::Records;
use std::alloc::{AllocError, Global};

/// A message from one site to another one: the sender's table of times, row after row, in half microseconds; up to when it
/// tells of each site, in half microseconds; and the first of the records that the other site is not known to have, at most 64.
#[derive(Clone, Debug, Drop)]
pub struct Message {
    pub from: SiteId,
    pub to: SiteId,
    /// The number of sites: the table has as many rows, each with as many times, and the cover has as many times.
    pub count: u8,
    pub table: Times,
    pub cover: Times,
    pub records: Records,
}

impl Message {
    pub fn copy(&self, alloc: Global) -> Result<Message, AllocError>
        ensures { IfOk result (λ copied. copied ≡ self.now) }
    {
        Ok(Message {
            from: self.from,
            to: self.to,
            count: self.count,
            table: self.table.copy()?,
            cover: self.cover.copy()?,
            records: self.records.copy(alloc)?,
        })
    }
}
