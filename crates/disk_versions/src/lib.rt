//! Whether the pages of a disk are versions: what fronts of the log records make of pages of zeros.
#![tactic(auto)]

mod ends;
mod laws;
mod met;
mod page;
mod placed;
mod range;
mod set;

pub use ends::{BEHIND, end_of};
pub use laws::placing_laws;
pub use met::{Mark, MetPages};
pub use range::check_range;
pub use set::Placing;
