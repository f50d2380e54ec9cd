//! Pages of the index: the entries of branches and leaves, one step of a search, and what their changes write.
#![tactic(auto)]

mod changes;
mod fields;
mod growth;
mod halves;
mod insertion;
mod laws;
mod layout;
mod search;
mod step;

pub use changes::{format_index, next_page, take_next};
pub use fields::{count, entry, high_key, low_key, right};
pub use growth::{Inserted, Split};
pub use halves::split;
pub use insertion::insert;
pub use laws::{format_laws, insert_laws, search_step_laws, split_laws, stamp_laws};
pub use layout::Entry;
pub use search::{keys_rise, look};
pub use step::Look;
