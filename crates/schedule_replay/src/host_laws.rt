//! The laws of hosts that a replay rests on.
ghost use Rattle.node_host.specs.Laws.{HostStandsAtItsEnd, JournaledSuffice, RecoveredGoesOn, RecoveredIsNode};

use node_host::{
    a_host_stands_at_its_end, journaled_entries_suffice, what_is_recovered_goes_on,
    what_is_recovered_is_the_node,
};

/// What a host's gate is, what its batches make, and that those that are not journaled are not missed.
pub(crate) fn host_laws()
    ensures ends { HostStandsAtItsEnd }
    ensures recovered { RecoveredIsNode }
    ensures goes_on { RecoveredGoesOn }
    ensures suffice { JournaledSuffice }
{
    a_host_stands_at_its_end();
    what_is_recovered_is_the_node();
    what_is_recovered_goes_on();
    journaled_entries_suffice();
}
