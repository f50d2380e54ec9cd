//! What is seen of transactions in what the members of a group hold: which lock one wants, who is in its way, and since when.
#![tactic(auto)]

mod dates;
mod fates;
mod flag;
mod grips;
mod looks;
mod quest;
mod seats;
mod sights;

pub use dates::follow_all;
pub use fates::quest_of;
pub use flag::Flag;
pub use looks::{asks, look_at_failure, look_behind};
pub use quest::Quest;
