//! The last checkpoint of a log, which is looked for backwards from the end of its whole records.
//!
//! A record's length stands at its end again, so that one gets from each record to the one before. The search reads no
//! more of the log than what stands behind the checkpoint, and a block.
#![tactic(auto)]

mod found;
mod last;
mod laws;
mod read;
mod search;

pub use found::Found;
pub use laws::search_laws;
pub use search::CheckpointSearch;
