//! What a report tells of the transactions of a script: their fates with names in place of numbers, their reads with what was
//! asked.
#![tactic(auto)]

mod entries;
mod names;
mod reads;

pub use entries::tell_entries;
pub use names::{copy_name, name_at, names_of};
