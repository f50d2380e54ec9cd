//! The logs of a disk, read by blocks, so that no whole log is held in memory.
#![tactic(auto)]

mod blocks;
mod ends;
mod records;

pub use blocks::{BLOCK, read_at, read_length};
pub use ends::find_end;
pub use log_volume::LogFault;
pub use records::next_record;
