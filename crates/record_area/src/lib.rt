//! Room for records, all of whose memory is taken before.
#![tactic(auto)]

mod area;

pub use area::{Area, Cell};
