//! The castout of a changed page from the group's cache to disk, one step after the other.
#![tactic(auto)]

mod machine;

pub use machine::{CastAnswer, CastStep, Castout};
