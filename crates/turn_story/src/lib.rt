//! From a value whose events are told by a relation to a machine of the turn, whose events are told by a history.
#![tactic(auto)]

mod desk;
mod phase;
mod row;
mod step;
mod stepping;
#[cfg(test)]
mod tests;
mod told;

pub use desk::Desk;
pub use phase::{Closed, Phase, Room};
pub use step::{Start, Step};
pub use stepping::Stepping;
pub use told::Told;
