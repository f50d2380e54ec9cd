//! The cache structure of a group: a directory of pages with their bytes, and the frames in which members
//! have registered them.
#![tactic(auto)]

mod cache;
mod face;
mod law;
mod registrations;
mod slot;
mod table;
mod validity;

pub use cache::Cache;
pub use face::{CacheFace, CastReply, DoneReply, ReadReply, WriteReply};
pub use law::keeps_entries_apart;
