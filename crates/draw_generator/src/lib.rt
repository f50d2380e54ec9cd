//! The numbers that scripts and orders of events are drawn from.
#![tactic(auto)]

mod generator;

pub use generator::Generator;
