//! The records of all logs of a disk in the order of their numbers, and those of one log, read by blocks, so that no whole log is
//! held in memory.
#![tactic(auto)]

mod begin;
mod log;
mod walk;

pub use begin::heads_to;
pub use log::next_of_log;
pub use walk::{Next, next_of_all};
