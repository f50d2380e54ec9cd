//! The lock structure of a group's facility: the lock table, and the records of locks that outlive their members.
//!
//! A member's lock makes interest in the entry of the lock table on which its name falls. Where no other member's
//! interest is in the way, the facility grants the lock at once. Else the members settle it between them, and the entry's
//! version tells whether their answers still stand.
#![tactic(auto)]

mod buckets;
mod chain;
mod cursor;
mod entry;
mod mask;
mod records;
mod replies;
mod structure;

pub use chain::{Held, Record};
pub use entry::Entry;
pub use replies::{GrantReply, Obtained};
pub use structure::LockStructure;
