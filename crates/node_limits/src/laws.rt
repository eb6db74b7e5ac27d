//! What holds of nodes within the limits, and of the transactions that are unfinished in a log.
ghost use Rattle.node_limits.specs.Laws.{ArrivingRecordsMayBeTaken, AskedIsTransaction, ClockLeavesOtherTimes, CurrentValueIsValue, CurrentVersionIsSpellable, EmptyNodeIsWithinLimits, EndLeavesTheOtherOwn, EndLeavesTheRest, NewOneAloneMayCommit, OwnRecordComesAfter, PrepareWaitsBehindTheRest, ReplyIsSpellable, StepKeepsLimits, StepKeepsSite};

/// The node of a site that has heard and done nothing is within the limits.
#[tactic(auto, using(crate::proofs::WithinLimits::empty_within))]
pub fn an_empty_node_is_within_limits()
    ensures { EmptyNodeIsWithinLimits }
{}

/// Whatever a node within the limits is asked, it stays within them.
#[tactic(auto, using(crate::proofs::WithinLimits::step_within))]
pub fn a_step_keeps_limits()
    ensures { StepKeepsLimits }
{}

/// Whatever a node within the limits is asked, its reply has a spelling.
#[tactic(auto, using(crate::proofs::WithinLimits::reply_spelled))]
pub fn each_reply_is_spellable()
    ensures { ReplyIsSpellable }
{}

/// A step leaves a node at its site.
#[tactic(auto, using(crate::proofs::SameSite::step_site))]
pub fn a_step_keeps_the_site()
    ensures { StepKeepsSite }
{}

/// The current version of a key, at a node within the limits, has a spelling.
pub fn each_current_version_is_spellable()
    ensures { CurrentVersionIsSpellable }
{}

/// The current value of a key, at a sound node, is no longer than a value may be.
pub fn each_current_value_is_a_value()
    ensures { CurrentValueIsValue }
{}

/// What a request within the limits becomes, over any log, is a transaction within the limits.
pub fn asked_is_transaction()
    ensures { AskedIsTransaction }
{}

/// At a sound node an own record above the clock comes after all that the log has of its site.
#[tactic(auto, using(crate::proofs::Arriving::own_after))]
pub fn own_records_come_after()
    ensures { OwnRecordComesAfter }
{}

/// At a sound node each record of a message comes after all that the log has of its site, or is passed over; whatever the
/// clock has come to.
pub fn arriving_records_may_be_taken()
    ensures { ArrivingRecordsMayBeTaken }
{}

/// Behind a Commit or an Abort the transactions are unfinished that it does not end.
#[tactic(auto, using(crate::proofs::OpenOnes::unfinished_end))]
pub fn an_end_leaves_the_rest()
    ensures { EndLeavesTheRest }
{}

/// A Prepare ends nothing, and its own transaction comes last among the unfinished ones, where nothing before has ended it.
#[tactic(auto, using(crate::proofs::OpenOnes::unfinished_prepare))]
pub fn a_prepare_waits_behind_the_rest()
    ensures { PrepareWaitsBehindTheRest }
{}

/// Of a site's own unfinished transactions a Commit or an Abort leaves those that it does not end, in their order.
#[tactic(auto, using(crate::proofs::OpenOnes::own_end))]
pub fn an_end_leaves_the_other_own()
    ensures { EndLeavesTheOtherOwn }
{}

/// Where a node's own time changes, what it knows of the other sites stays.
#[tactic(auto, using(crate::proofs::Sound::known_put))]
pub fn a_clock_leaves_other_times()
    ensures { ClockLeavesOtherTimes }
{}

/// In a node within the limits that takes a new own transaction, none of its own open ones commits but the new one, where the
/// node has heard so far.
#[tactic(auto, using(crate::proofs::Waiting::new_alone))]
pub fn a_new_one_alone_may_commit()
    ensures { NewOneAloneMayCommit }
{}
