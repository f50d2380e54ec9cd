//! The log of a member, read from a disk by blocks.
//!
//! A reader says which call of the disk it needs, lends the block into which bytes are read, and takes the reply: first
//! the log's length, then its bytes by blocks of 65,536. A log that becomes shorter meanwhile, since its tail is cut, ends
//! where its bytes end.
//!
//! Of a log that is longer than a block, what stands before its last checkpoint isn't kept, if that is of version 2 and
//! names its own place, and no transaction that began before it has a record behind it; else all of the log is kept. All
//! records are looked at, so a field that isn't allowed is told wherever it stands.
#![tactic(auto)]

mod begin;
mod calls;
mod held;
mod laws;
mod reader;

pub use begin::place_in;
pub use calls::{LogCall, LogRead, LogReply};
pub use laws::reader_laws;
pub use log_record::Log;
pub use reader::{BLOCK, LogReader};
