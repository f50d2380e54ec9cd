//! Checkpoints of the logs that a group restart reads: whether each names a byte at which a record of its log begins that isn't behind its own.
#![tactic(auto)]

mod offsets;

pub use offsets::{earlier, find_wrong_offset};
