//! The data of the commit protocol, and the definitions that all layers share.
//! The layers above use the types with their limits, `conflicts`, and the definitions of specs/.
#![tactic(auto)]

mod entries;
mod ids;
mod keyed;
mod keys;
mod limits;
mod messages;
mod naming;
mod numbers;
mod offsets;
mod pairings;
mod passing;
mod plans;
mod records;
mod short;
mod squares;
mod texts;
mod transactions;

pub use entries::{Entries, Entry, Input, Replies, Reply, State};
pub use ids::{SiteId, Time, TxnId, TxnIds, Version};
pub use keyed::{Keyed, keys_differ};
pub use keys::{Key, Keys, Val};
pub use limits::{
    GREATEST_LATENCY, LAST_READING, LAST_TIME, LONGEST_TRIP, MOST_INPUTS, MOST_ITEMS,
    MOST_KEY_BYTES, MOST_NAME_BYTES, MOST_OPEN, MOST_RECORDS, MOST_SITES, MOST_VALUE_BYTES,
    SPENT_TIME,
};
pub use messages::Message;
pub use naming::first_bad_name;
pub use numbers::{Bytes, Places, Times};
pub use offsets::offsets_are_tested;
pub use pairings::{
    certificates_show_optimal, pairings_are_orders, pairings_bound, partners_add_up,
};
pub use passing::{each_matrix_passes, each_search_finds_first};
pub use plans::{Certificate, Matrix, Name, Names, Plan};
pub use records::{CommitEvent, Commits, Record, Records};
pub use short::{each_short_pair_is_found, first_short};
pub use squares::{first_away, first_too_long, first_uneven};
pub use texts::{
    Misspelled, ids_are_read_again, is_name, key_from, number_from, value_from,
    versions_are_read_again,
};
pub use transactions::{
    Ask, Prepare, PutItem, Puts, ReadItem, Reads, WriteItem, Writes, conflicts,
};
