//! The limits that every site's node keeps, step by step, so that whatever it tells has a spelling.
#![tactic(auto)]

mod laws;

pub use laws::{
    a_clock_leaves_other_times, a_new_one_alone_may_commit, a_prepare_waits_behind_the_rest,
    a_step_keeps_limits, a_step_keeps_the_site, an_empty_node_is_within_limits,
    an_end_leaves_the_other_own, an_end_leaves_the_rest, arriving_records_may_be_taken,
    asked_is_transaction, each_current_value_is_a_value, each_current_version_is_spellable,
    each_reply_is_spellable, own_records_come_after,
};
