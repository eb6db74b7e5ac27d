//! Each law is carried by a function with an empty body, whose one clause states it of every plan and every list of
//! steps.
ghost use Rattle.protocol_laws.specs.Safe.{EachWorldIsSafe};
ghost use Rattle.protocol_laws.specs.Told.{EachToldIsTrue, EachSentIsTold, EachSentIsMessage, EachToldStands, EachToldStays};
ghost use Rattle.protocol_laws.specs.Logs.{EachTimeRises, EachIdIsGivenOnce, EachEndingFollows, EachVersionWasCurrent, EachCommitWaited, EachConflictIsOrdered};
ghost use Rattle.protocol_laws.specs.Histories.{EachWorldGrows, EachRefusalIsNamed, EachHistoryIsCommits, HistoryIsSerial, SerialAtOneSite};
ghost use Rattle.protocol_laws.specs.Later.{EachTimeIsKept, EachIdStaysGiven};
ghost use Rattle.protocol_laws.specs.ManySites.{EachWorldIsHonest, EachSentEndIsTaken, EachWorldIsOrdered, EachAbortIsCaused, EachCommitIsEvent};
ghost use Rattle.protocol_laws.specs.Ceiling.{EachNodeStaysBelow};
ghost use Rattle.protocol_laws.specs.Placed.{EachNodeIsPlaced};
ghost use Rattle.protocol_laws.specs.Moves.{BatchMovesOneNode};
ghost use Rattle.protocol_laws.specs.Symmetry.{ConflictIsSymmetric};
ghost use Rattle.protocol_laws.specs.Times.{AskedIsTransaction, EachEntryMayBeAsked, EachTableIsSmall, EachCommitIsSpellable, EachRecordIsSpellable, EachReplyIsSpellable, EachEntryIsSpellable};

/// Conflict is the same from both sides.
pub fn conflict_is_symmetric()
    ensures { ConflictIsSymmetric }
{}

/// What a request within the limits becomes, over any log, is a transaction within the limits.
pub fn asked_is_transaction()
    ensures { AskedIsTransaction }
{}

/// In each world that is reached there is a journal for each site, and each site's node has the site's number
/// and a table with one time for each two sites.
pub fn each_node_is_placed()
    ensures { EachNodeIsPlaced }
{}

/// A batch that was made durable moves its own site's node by its entries, and no other node; a batch that was lost and a
/// restart move none. An input that is not journaled leaves the node as it is.
pub fn batch_moves_one_node()
    ensures { BatchMovesOneNode }
{}

/// A site has at most 65,536 own unfinished transactions, and its clock comes at most to 2^62 - 2^16 half microseconds.
pub fn each_node_stays_below()
    ensures { EachNodeStaysBelow }
{}

/// Steps only add at the end of what was told, of what was sent, of the history and of each site's log, and no time in a
/// site's table falls.
pub fn each_world_grows()
    ensures { EachWorldGrows }
{}

/// Each entry of a site's journal is one that the site may be asked: a request within the limits, a message for another site
/// of the plan, or a well-formed message for this one.
pub fn each_entry_may_be_asked()
    ensures { EachEntryMayBeAsked }
{}

/// No time in a site's table is above 2^62 half microseconds.
pub fn each_table_is_small()
    ensures { EachTableIsSmall }
{}

/// In each site's log the own times of each origin rise strictly from above 0, and each is at most the time that the
/// site's row of the table has of its origin: an own time is at most the site's clock.
pub fn each_time_rises()
    ensures { EachTimeRises }
{}

/// In each world of an accepted plan each record of a site's log has a spelling: each id in it has a time from 1 to 2^62
/// half microseconds, and its keys and values are within their limits.
pub fn each_record_is_spellable()
    ensures { EachRecordIsSpellable }
{}

/// In each world of an accepted plan the id of each committed transaction has a spelling: a time from 1 to 2^62 half microseconds.
pub fn each_commit_is_spellable()
    ensures { EachCommitIsSpellable }
{}

/// In each world of an accepted plan each reply that was told has a spelling, and with it each message that was sent.
pub fn each_reply_is_spellable()
    ensures { EachReplyIsSpellable }
{}

/// Each told reply is true of the first records of its site's log, as many as the log had just before the input: the current
/// version and value of a key, what is known of a transaction, the stale read or the unfinished transaction that stood in the
/// way, and the message that the site sent. What was told as taken or committed stands in the site's log under the told id.
pub fn each_told_is_true()
    ensures { EachToldIsTrue }
{}

/// The messages that were sent are those of the told replies, in their order.
pub fn each_sent_is_told()
    ensures { EachSentIsTold }
{}

/// In each world of an accepted plan each message that was sent is of the plan's count and has a spelling.
pub fn each_sent_is_message()
    ensures { EachSentIsMessage }
{}

/// What was told as committed, and each version that was told, also in a message, is that of an event of the history, then
/// and in every later world, and a told value is what the event of its version writes; what was told as aborted is that of no
/// event, then and later.
pub fn each_told_stands()
    ensures { EachToldStands }
{}

/// Each told refusal names what stood in its way: the current version is that of an event of the history whose Commit stood
/// in the site's log just before the input, and the conflicting transaction was unfinished there.
pub fn each_refusal_is_named()
    ensures { EachRefusalIsNamed }
{}

/// What sites know of each other is so. No table of times says more of another site than that site's own row; a site's log
/// has, in order, exactly the records of each origin up to the time in its own row, and before each of them what stands
/// before it in its origin's log; and each message that was sent tells its receiver no more than is so, with exactly the
/// records that it says, and with what stands before them or is known to be there.
pub fn each_world_is_honest()
    ensures { EachWorldIsHonest }
{}

/// As a site takes a message that was sent to it, no Commit or Abort in it is passed over for want of its Prepare.
pub fn each_sent_end_is_taken()
    ensures { EachSentEndIsTaken }
{}

/// What a site makes in any later world is above each time that a message which was sent by now gives for the site: in any
/// row of its table, in its cover, and in its records and the ids that they name.
pub fn each_time_is_kept()
    ensures { EachTimeIsKept }
{}

/// No two Prepares of a log have one id, and Prepares of one id in two logs are the same Prepare.
pub fn each_id_is_given_once()
    ensures { EachIdIsGivenOnce }
{}

/// An id that a Prepare of any log has is given to no other transaction in any later world.
pub fn each_id_stays_given()
    ensures { EachIdStaysGiven }
{}

/// Each Commit and each Abort stands behind the Prepare of its id, has a time above the time of that id, and is the only
/// one of the log that ends that id.
pub fn each_ending_follows()
    ensures { EachEndingFollows }
{}

/// Where a site took a transaction, each version that it read or overwrites was the current one in the log so far.
pub fn each_version_was_current()
    ensures { EachVersionWasCurrent }
{}

/// Each own Commit of a log waited: by the site's table as it stood at the Commit, the site knew every other site up to the
/// time of the id and the offset between them; and by the table of today it still does.
pub fn each_commit_waited()
    ensures { EachCommitWaited }
{}

/// No Prepare behind an own unfinished transaction conflicts with it. Of two that conflict, of which the later one is own
/// or the earlier one is own and is never aborted, the earlier one has its Commit or Abort before the later one's Prepare.
pub fn each_conflict_is_ordered()
    ensures { EachConflictIsOrdered }
{}

/// Of two transactions that conflict in a log, of which the later one is own or the earlier one is own and is never aborted,
/// the earlier one ends before the later one is taken; and before an own Commit stands each record that another site made
/// up to the time of the id and the offset from this site to that one.
pub fn each_world_is_ordered()
    ensures { EachWorldIsOrdered }
{}

/// The events of the history that are of one site are, in order, the own Commits of that site's log, and each event is of
/// one of the plan's sites.
pub fn each_history_is_commits()
    ensures { EachHistoryIsCommits }
{}

/// The history and the Commits of all logs are the same transactions: a Commit in any log is that of an event, whose Prepare
/// stands before it; no event is aborted in any log; and each version that a Prepare in a log or in a sent message names is
/// `Initial`, or that of an event which writes the key.
pub fn each_commit_is_event()
    ensures { EachCommitIsEvent }
{}

/// In each world of an accepted plan the history is a serial history that gives every version read.
pub fn history_is_serial()
    ensures { HistoryIsSerial }
{}

/// Where all batches are of one site, the history is a serial history that gives every version read, whatever the plan.
pub fn serial_at_one_site()
    ensures { SerialAtOneSite }
{}

/// Each Abort in any log names a transaction of another site that conflicts with the aborted one. Its Prepare stands before
/// the Abort in the log of the aborted one's site, and in the log of its own site.
pub fn each_abort_is_caused()
    ensures { EachAbortIsCaused }
{}

/// What was told holds in every later world: it is true of the records that the site's log had then, and what it says of commits stands.
pub fn each_told_stays()
    ensures { EachToldStays }
{}

/// In each world of an accepted plan the history is a serial history that gives every version read, each refusal and each Abort
/// names what stood in its way, each told reply is true and stands, tables and messages are honest, and conflicts are in order.
pub fn each_world_is_safe()
    ensures { EachWorldIsSafe }
{}

/// Each entry of a site's journal is one that a journal keeps, and has a spelling where its reading is below 2^64.
pub fn each_entry_is_spellable()
    ensures { EachEntryIsSpellable }
{}
