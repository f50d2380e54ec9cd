//! Whether the keys of a page of the index rise.
#![tactic(auto)]

mod keys;

pub use keys::first_fall;
