//! How far a script is played, what the group itself may do next, and what a phase gives to each member.
#![tactic(auto)]

mod phase;
mod progress;

pub use phase::{Raisers, is_failed, is_left_out, part_of, raisers_of, restarts_in};
pub use progress::{GROUP_FAILURE, GROUP_RESTART, NEXT_PHASE, Progress};
