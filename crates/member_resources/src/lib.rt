//! What one member holds, and the one event that may change it.
//!
//! A policy says what it wants. The event is made in one call: the intent is tested, its command goes to the facility or to
//! the disk, the answer is settled in full, and then the policy goes on by local moves. No page leaves this crate but in the
//! event that found it valid, and nothing that the policy does can make an event that wasn't tested.
#![tactic(auto)]

mod lending;
mod policy;
mod prepared;
mod resources;
mod settle;
mod step;

pub use policy::Policy;
pub use resources::Resources;
