//! What the records that some site is not known to have still tell.
ghost use Rattle.log_exchange.specs.Laws.{FewerAreNeeded, KeptServesLater, NeededAppends, NeededStays, NeededTellsCover, NeededTellsRecords};

/// A message holds and covers the same, whether it is taken from a log or from what of it some site needs.
pub fn needed_records_tell_all()
    ensures stays { NeededStays }
    ensures records { NeededTellsRecords }
    ensures cover { NeededTellsCover }
{}

/// Under a table whose times are no lower, no other records are needed.
pub fn fewer_are_needed()
    ensures log { FewerAreNeeded }
    ensures kept { KeptServesLater }
{}

/// Of a log that goes on, what is needed goes on.
pub fn needed_appends()
    ensures { NeededAppends }
{}
