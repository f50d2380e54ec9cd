//! A map from a table and a key to a small value, in order.
#![tactic(auto)]

mod map;

pub use map::SpotMap;
