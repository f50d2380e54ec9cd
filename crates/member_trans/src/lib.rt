//! The transactions of a member's agents, by their slots, and its postponed rollbacks: how far each is, what it has
//! changed, and how it ends.
//!
//! A call that doesn't fit what stands changes nothing. Nothing but `new`, `begin`, `reserve_change` and `reserve_rollback`
//! takes memory.
#![tactic(auto)]

mod fate;
mod list;
mod slot;
mod trans;

pub use fate::{Change, Offer, Owner, Refused, Stage};
pub use trans::Trans;
