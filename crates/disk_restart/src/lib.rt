//! A group restart from its first call of the disk to its last.
//!
//! It cuts the tails of logs, writes pages, and appends compensations and ends. So whatever its end, each log has the row
//! changes, the page changes for no transaction and the commits that it had.
#![tactic(auto)]

mod laws;
mod restart;

pub use group_restart::State;
pub use laws::keeping_laws;
pub use restart::{restart_disk, run_restart};
