//! The records of several logs as one list, in the order of their numbers.
//!
//! The numbers of log records (LRSNs) are common to a group, and order the logs of its members. What was lost with the
//! group buffer pool, or with the whole group, is brought back from the merged logs (Josten, Mohan, Narang and Teng, "DB2's
//! use of the coupling facility for data sharing", IBM Systems Journal 36(2), 1997).
#![tactic(auto)]

mod copies;
mod laws;
mod merged;
mod pairs;

pub use laws::merging_laws;
pub use merged::{Merged, merge};
