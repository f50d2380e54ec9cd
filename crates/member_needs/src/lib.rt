//! What must hold before an event, and what it sends: a test of each intent over what the member holds.
//!
//! Nothing is changed here. The first test that fails is told.
#![tactic(auto)]

mod castout;
mod closing;
mod frames;
mod locks;
mod needs;
mod plans;
mod records;
mod waits;

pub use castout::Cast;
pub use frames::is_stable;
pub use member_intents::{Frames, Outcome};
pub use member_marks::{Marks, Owner, Trial};
pub use needs::{Setting, need};
pub use plans::{Plan, plan_for};
pub use records::frame_of;
