//! What a member may want of an event, and what the event came to, as plain data.
//!
//! The policy of a member says by an `Intent` what it wants next. The mechanism tests it, does it, and tells the policy the
//! `Outcome`.
#![tactic(auto)]

mod cells;
mod intent;
mod outcome;
mod test;

pub use cells::cell_slot;
pub use facility::{Command, Indexes};
pub use intent::{Frames, Intent};
pub use outcome::{Answered, Event, Look, Outcome, Sent};
pub use page_plans::{
    Action, RowPlan, action_page, patches_length, place_of, plan, row_change, undo_change,
};
pub use test::{StepFault, Test};
