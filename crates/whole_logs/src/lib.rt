//! Whether the bytes of logs are whole records whose numbers never fall, and then what a stop inside an append may leave.
#![tactic(auto)]

mod next;
mod read;

pub use read::{Reach, read_records, tail_laws};
