//! Checkpoints of a log that is read record by record: which offsets may not stand there, from which byte the log is read on by a
//! restart, and what the records before it need of the pages of the disk.
#![tactic(auto)]

mod needs;
mod offsets;
mod recheck;
mod scan;
mod start;

pub use needs::{Need, needs_laws};
pub use recheck::{Recheck, recheck_laws};
pub use scan::LogScan;
