//! Lists that proofs alone read: what was taken so far, without the memory that it would take.
#![tactic(auto)]

mod past;

pub use past::Past;
