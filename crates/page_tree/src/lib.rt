//! A set of pages in the order of page set and number, in memory that was taken before.
#![tactic(auto)]

mod order;
mod set;
mod tree;

pub use order::comes_before;
pub use set::PageSet;
