//! Reading the logs of a disk, each of which is to be whole records whose numbers never fall, and then nothing or the front of
//! one; and where these records end, by blocks.
#![tactic(auto)]

mod ends;
mod laws;
mod log;
mod logs;

pub use ends::{Ends, find_all_ends};
pub use laws::broken_laws;
pub use log::{Looked, whole_log};
pub use logs::{Found, LogList, read_logs};
