//! A disk of pages and of one log for each member.
#![tactic(auto)]

mod disk;
mod health;
mod log_set;
mod memory;
mod page_map;
mod plan;

pub use disk::{Disk, DiskError, DiskFailure, DiskOp};
pub use memory::MemoryDisk;
