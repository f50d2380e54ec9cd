//! A member's log buffer: the log records that don't stand in the member's log on disk yet.
#![tactic(auto)]

mod buffer;
#[cfg(test)]
mod tests;

pub use buffer::{MemberLog, MustForce};
pub use log_record::{compensation_of, record_length};
