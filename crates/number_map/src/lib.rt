//! A map from log record numbers, in their order.
#![tactic(auto)]

mod map;

pub use map::NumberMap;
