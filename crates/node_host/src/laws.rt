// Each law states what follows from the definitions alone.
ghost use Rattle.node_host.specs.Laws.{BatchesArePushed, CommitsAreJoined, HeadKeeps, HostStandsAtItsEnd, JournaledSuffice, OneEnd, OneHolding, OneLog, OwnJournalOpens, RecoveredGoesOn, RecoveredIsNode, StoppedBatch};

use log_records::{batches_are_read_again, no_batch_is_longer, what_is_read_is_a_batch};
use node_journal::laws::{
    next_of_list, no_frame, no_list, one_frame, one_gate, one_list, one_reading, stopped_disk,
};

/// An image holds at most one list of batches of a site.
pub fn one_holding()
    ensures { OneHolding }
{
    one_list();
}

/// A disk that held nothing, and whose images now stand for nothing or for the head alone, holds no other batches than before.
pub fn what_a_head_keeps()
    ensures { HeadKeeps }
{
    one_list();
}

/// With one payload more that spells a batch, a journal has that batch more.
pub fn batches_are_pushed()
    ensures { BatchesArePushed }
{}

/// With one batch more, the node that is recovered is the one before after the batch's entries.
pub fn what_is_recovered_goes_on()
    ensures { RecoveredGoesOn }
{}

/// The own Commits of two runs of entries, joined, are those of the whole.
pub fn commits_are_joined()
    ensures { CommitsAreJoined }
{}

/// The gate of a host stands where the journal of its batches ends.
pub fn a_host_stands_at_its_end()
    ensures { HostStandsAtItsEnd }
{
    one_gate();
    what_is_read_is_a_batch();
}

/// What the batches of a site's journal make is the site's node.
pub fn what_is_recovered_is_the_node()
    ensures { RecoveredIsNode }
{}

/// A journal of this site of this plan opens, where there is room for a head and no call fails.
pub fn an_own_journal_is_opened()
    ensures { OwnJournalOpens }
{
    next_of_list();
    no_list();
}

/// What a disk reads as decides how an opening of it ends: where no call fails and there is memory, two openings for one site of one plan
/// within one limit give the same number of batches and the same own Commits of the last one, or the same fault.
pub fn one_end()
    ensures { OneEnd }
{
    one_reading();
    one_frame();
    no_frame();
    next_of_list();
    no_list();
}

/// What a disk reads as decides which records it gives: where no call fails and there is memory, these or this fault and no other.
pub fn one_log()
    ensures { OneLog }
{
    one_list();
    one_reading();
    one_frame();
    no_frame();
    next_of_list();
    no_list();
}

/// Entries that are not journaled leave the node as it is.
pub fn journaled_entries_suffice()
    ensures { JournaledSuffice }
{}

/// A call of a batch on a disk in memory was done and stopped, and the disk crashed: it holds the batches before, or these and
/// the new one, by the number of the call and by what the crash keeps.
pub fn a_stopped_batch()
    ensures { StoppedBatch }
{
    stopped_disk();
    batches_are_read_again();
    no_batch_is_longer();
}
