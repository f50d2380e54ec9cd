//! The records of several logs in the order of their numbers, as `log_merge` has them, with the logs read by blocks.
//!
//! Of each log a block is in hand, and before it less than a record. Logs are read up to the length that is given, where
//! their whole records end. A record is taken once all logs tell what they go on with: so it is the one with the least number.
#![tactic(auto)]

mod heads;
mod laws;
mod scan;
mod taken;

pub use heads::Heads;
pub use laws::heads_laws;
pub use taken::Taken;
