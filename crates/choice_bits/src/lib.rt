//! The choices of a member that are ready, as a bit for each.
#![tactic(auto)]

mod bits;

pub use bits::{CHOICES, count_choices, has_choice, nth_choice};
