//! The rows that log records left, and whether the slots of a page of a heap have them.
#![tactic(auto)]

mod heap;
mod left;
mod rows;

pub use heap::page_has;
pub use left::LeftRows;
