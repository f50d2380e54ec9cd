//! The members of a group with their facility: its phases, what is ready, and what the events of members and of the group
//! itself do to them.
#![tactic(auto)]

mod begin;
mod crew;
mod ends;
mod failure;
mod make;
mod member_step;

pub use crew::{Crew, look_for};
pub use ends::ends_behind;
pub use failure::step_restart;
pub use group_member::{
    CHOICES, EventFault, GroupSizes, MemberPart, Policy, Rebuilding, Restarting, Stepped,
    count_choices, has_choice, nth_choice,
};
pub use member_intents::{Answered, Sent};
pub use member_step::command_of;
pub use script_phases::{GROUP_FAILURE, GROUP_RESTART, NEXT_PHASE, Progress};
