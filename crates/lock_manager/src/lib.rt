//! The lock manager of a member: the claims of its agents and of its postponed rollbacks.
//!
//! A member tries each lock here first. Where the mode that it holds on the name covers the one asked, the group's lock
//! table isn't asked. It answers from here too when another member asks whether it holds a lock that is in the way.
//!
//! It has the part of the internal resource lock manager that Josten, Mohan, Narang and Teng describe (IBM Systems Journal
//! 36(2), 1997).
#![tactic(auto)]

pub mod buckets;
pub mod chain;
pub mod claim;
pub mod holds;
mod manager;
mod scan;
mod tally;

pub use claim::{Ask, Claim, LockAnswer, Rollback};
pub use manager::LockManager;
