//! Where the whole records of a log end that may have a tail.
//!
//! A stop inside an append leaves a tail behind the whole records of a log. Where these end is found by reading the log on
//! from a place where a record begins.
#![tactic(auto)]

mod end;

pub use end::WholeEnd;
pub use log_head::Standing;
