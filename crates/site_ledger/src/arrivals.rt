//! How a ledger takes a message's records in, with its site's clock.
ghost use Rattle.std.specs.Prelude.{◌≡◌, ◌+◌, ◌^◌, ◌<◌, ◌≤◌, [], ◌∷◌, All, IfOk, length};
ghost use Rattle.helios_model.specs.Log.{origin};
ghost use Rattle.helios_model.specs.Spellable.{OwnTimesRiseByOrigin};
ghost use Rattle.helios_model.specs.Exchange.{abort_one, take_all, take_end, take_new, take_one, take_prepare};
ghost use Rattle.node_limits.specs.Limits.{IsAfter, MayTake};
ghost use Rattle.time_table.specs.Table.{time_at};
ghost use Rattle.log_exchange.specs.Kept.{AreOf};
ghost use Rattle.site_ledger.specs.Ledger.{AreKnown, Base, BecomesIntake, GoesOn, HasEarlier, HasKnown, HasTakeable, HasTakeableOne, IsLedgerOf, log_in};

use crate::ledger::Ledger;
use helios_model::{Prepare, Record, Records, Time, TxnId};
use std::alloc::AllocError;
use time_table::TimeTable;

/// A ledger that takes records in, and its site's clock, in half microseconds.
#[derive(Drop)]
pub struct Taking {
    pub ledger: Ledger,
    pub clock: u64,
}

impl Taking {
    /// Takes an arriving transaction, and aborts the own unfinished ones that conflict with it, each at the next time.
    pub fn take_prepare(self, p: Prepare) -> Result<Taking, AllocError>
        requires origin { p.id.site < self.ledger.count }
        requires after { HasEarlier self.ledger (Record.Prepare p) }
        requires bounded { self.clock ≤ 2 ^ 62 + length self.ledger.added }
        ensures taken { IfOk result (λ r. (b : Base) → IsLedgerOf b self.ledger → IsAfter (log_in b self.ledger) (Record.Prepare p)
            → BecomesIntake b self.ledger self.clock r.ledger r.clock (λ a. take_prepare self.ledger.site a p)) }
        ensures goes { IfOk result (λ r. GoesOn self.ledger self.clock r.ledger r.clock) }
    {
        let Taking { ledger, clock } = self;
        let cause = p.id();
        let clashing = ledger.own_conflicts(&p)?;
        let ledger = ledger.append_prepare(p)?;
        let mut taking = Taking { ledger, clock };
        let ids = clashing.items();
        for id in ids {
            taking = taking.abort(&cause, id)?;
        }
        Ok(taking)
    }

    /// Takes a record of a message by the table as it is, unless the site made it itself or knows of it already.
    pub fn take_one(self, t: &TimeTable, r: Record) -> Result<Taking, AllocError>
        requires count { self.ledger.count ≡ t.now.count }
        requires origin { origin r < t.now.count }
        requires after { HasTakeableOne self.ledger.site (time_at t.now self.ledger.site) self.ledger r }
        requires bounded { self.clock ≤ 2 ^ 62 + length self.ledger.added }
        ensures taken { IfOk result (λ x. (b : Base) → IsLedgerOf b self.ledger → MayTake self.ledger.site (time_at t.now self.ledger.site) (log_in b self.ledger) r
            → BecomesIntake b self.ledger self.clock x.ledger x.clock (λ a. take_one self.ledger.site (time_at t.now self.ledger.site) a r)) }
        ensures goes { IfOk result (λ x. GoesOn self.ledger self.clock x.ledger x.clock) }
    {
        let own = self.ledger.site();
        let origin = r.origin();
        if origin == own {
            return Ok(self);
        }
        let known = t.get(own, origin).half_micros();
        let time = r.own_time().half_micros();
        if time <= known {
            return Ok(self);
        }
        let taking = self.take_new(r)?;
        Ok(taking)
    }

    /// Takes a message's records in their order, by the table as it is.
    pub fn take_all(self, t: &TimeTable, records: Records) -> Result<Taking, AllocError>
        requires count { self.ledger.count ≡ t.now.count }
        requires origins { AreOf t.now.count records }
        requires rise { OwnTimesRiseByOrigin records }
        requires after { HasTakeable self.ledger.site (time_at t.now self.ledger.site) self.ledger records }
        requires bounded { self.clock ≤ 2 ^ 62 + length self.ledger.added }
        ensures taken { IfOk result (λ r. (b : Base) → IsLedgerOf b self.ledger → All (MayTake self.ledger.site (time_at t.now self.ledger.site) (log_in b self.ledger)) records
            → BecomesIntake b self.ledger self.clock r.ledger r.clock (λ a. take_all self.ledger.site (time_at t.now self.ledger.site) a records)) }
        ensures goes { IfOk result (λ r. GoesOn self.ledger self.clock r.ledger r.clock) }
    {
        let mut taking = self;
        let items = records.into_items();
        for r in items {
            taking = taking.take_one(t, r)?;
        }
        Ok(taking)
    }

    /// Aborts an own transaction at the next time, since it conflicts with the cause.
    fn abort(self, cause: &TxnId, id: &TxnId) -> Result<Taking, AllocError>
        requires here { id.now.site < self.ledger.count }
        requires known { HasKnown self.ledger (id.now ∷ []) }
        requires bounded { self.clock ≤ 2 ^ 62 + length self.ledger.added }
        ensures aborted { IfOk result (λ r. (b : Base) → IsLedgerOf b self.ledger → AreKnown (log_in b self.ledger) (id.now ∷ [])
            → BecomesIntake b self.ledger self.clock r.ledger r.clock (λ a. abort_one cause.now a id.now)) }
        ensures goes { IfOk result (λ r. GoesOn self.ledger self.clock r.ledger r.clock) }
    {
        let Taking { ledger, clock } = self;
        prove!(ledger.gained() < 1 << 60);
        let time = clock + 1;
        let ledger = ledger.append_abort(id, Time::of(time), cause)?;
        Ok(Taking {
            ledger,
            clock: time,
        })
    }

    /// Takes an arriving Commit, where its transaction is unfinished.
    fn take_commit(self, id: &TxnId, time: Time) -> Result<Taking, AllocError>
        requires origin { id.now.site < self.ledger.count }
        requires bounded { self.clock ≤ 2 ^ 62 + length self.ledger.added }
        ensures taken { IfOk result (λ x. (b : Base) → IsLedgerOf b self.ledger
            → BecomesIntake b self.ledger self.clock x.ledger x.clock (λ a. take_end a id.now (Record.Commit id.now time))) }
        ensures goes { IfOk result (λ x. GoesOn self.ledger self.clock x.ledger x.clock) }
    {
        let Taking { ledger, clock } = self;
        let ledger = ledger.append_commit(id, time)?;
        Ok(Taking { ledger, clock })
    }

    /// Takes an arriving Abort, where its transaction is unfinished.
    fn take_abort(self, id: &TxnId, time: Time, cause: &TxnId) -> Result<Taking, AllocError>
        requires origin { id.now.site < self.ledger.count }
        requires bounded { self.clock ≤ 2 ^ 62 + length self.ledger.added }
        ensures taken { IfOk result (λ x. (b : Base) → IsLedgerOf b self.ledger
            → BecomesIntake b self.ledger self.clock x.ledger x.clock (λ a. take_end a id.now (Record.Abort id.now time cause.now))) }
        ensures goes { IfOk result (λ x. GoesOn self.ledger self.clock x.ledger x.clock) }
    {
        let Taking { ledger, clock } = self;
        ledger.has_log();
        if ledger.holds(id) {
            let ledger = ledger.append_abort(id, time, cause)?;
            return Ok(Taking { ledger, clock });
        }
        Ok(Taking { ledger, clock })
    }

    /// Takes a record of a message that the site neither made nor knows of.
    fn take_new(self, r: Record) -> Result<Taking, AllocError>
        requires origin { origin r < self.ledger.count }
        requires after { HasEarlier self.ledger r }
        requires bounded { self.clock ≤ 2 ^ 62 + length self.ledger.added }
        ensures taken { IfOk result (λ x. (b : Base) → IsLedgerOf b self.ledger → IsAfter (log_in b self.ledger) r
            → BecomesIntake b self.ledger self.clock x.ledger x.clock (λ a. take_new self.ledger.site a r)) }
        ensures goes { IfOk result (λ x. GoesOn self.ledger self.clock x.ledger x.clock) }
    {
        match r {
            Record::Prepare(p) => {
                let taking = self.take_prepare(p)?;
                Ok(taking)
            }
            Record::Commit { id, time } => {
                let taking = self.take_commit(&id, time)?;
                Ok(taking)
            }
            Record::Abort { id, time, cause } => {
                let taking = self.take_abort(&id, time, &cause)?;
                Ok(taking)
            }
        }
    }
}
