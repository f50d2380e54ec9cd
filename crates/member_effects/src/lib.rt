//! What the answer of an event makes of what a member holds.
//!
//! The intent was tested before. Nothing here takes memory but the search for a cycle of waits.
#![tactic(auto)]

mod answers;
mod changes;
mod claims;
mod closing;
mod cycles;
mod frames;
mod lists;
mod told;

pub use answers::{Said, Sum, answered};
pub use changes::{commit_drawn, drawn, undone};
pub use claims::claimed;
pub use closing::{end_now, ended, page_released, purged, released};
pub use cycles::cycle_refused;
pub use frames::{page_read, read, tested, unregistered, written};
pub use lists::{cast_told, changed_told, flag_told, query_told, status_told};
pub use member_needs::{Cast, Plan, Setting, is_stable, need, plan_for};
pub use told::{Told, outcome_of};
