//! Whether bytes are a proper front of a log record, as a stop inside an append may leave them.
//!
//! What is missing of a record is taken from a template, which has the least bytes that are allowed; and then the record is
//! read. A front of a record with as many bytes in each field is filled up so to a record.
#![tactic(auto)]

mod change;
mod complete;
mod frame;
mod plain;
mod seen;
mod system;
mod torn;

pub use torn::is_torn;
