//! A group of members over one facility and one disk, one event at a time.
//!
//! An event is a choice of a member, or of the group itself. Its number is the choice times 64, and the member (0 for the
//! group). What a choice wants is for the policy of its member to say; what an event may do is tested by what the member holds.
#![tactic(auto)]

mod close;
mod closed;
mod fault;
mod group;
mod lines;
mod own;
mod schedule;
mod start;
mod step;

pub use close::Played;
pub use closed::Closed;
pub use fault::{RunFault, StartFault};
pub use group::Group;
pub use group_crew::{Crew, MemberPart, Policy, command_of, look_for};
pub use lines::{note, note_failure, note_silent, reserve, stepped_line};
pub use schedule::{RunEnd, run_one_thread};
pub use script_fates::Cause;
pub use trace_words::Line;
