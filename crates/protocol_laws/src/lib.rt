//! The laws of the commit protocol, over the definitions of `helios_model` alone: what holds in every world that steps reach.
#![tactic(auto)]

mod laws;

pub use laws::{
    asked_is_transaction, batch_moves_one_node, conflict_is_symmetric, each_abort_is_caused,
    each_commit_is_event, each_commit_is_spellable, each_commit_waited, each_conflict_is_ordered,
    each_ending_follows, each_entry_is_spellable, each_entry_may_be_asked, each_history_is_commits,
    each_id_is_given_once, each_id_stays_given, each_node_is_placed, each_node_stays_below,
    each_record_is_spellable, each_refusal_is_named, each_reply_is_spellable,
    each_sent_end_is_taken, each_sent_is_message, each_sent_is_told, each_table_is_small,
    each_time_is_kept, each_time_rises, each_told_is_true, each_told_stands, each_told_stays,
    each_version_was_current, each_world_grows, each_world_is_honest, each_world_is_ordered,
    each_world_is_safe, history_is_serial, serial_at_one_site,
};
