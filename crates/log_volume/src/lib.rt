//! The log of a member on a disk, read as a whole.
#![tactic(auto)]

mod fault;
mod read;

pub use fault::LogFault;
pub use log_record::Log;
pub use read::open_log;
