//! The order in which the changed pages of a table are written.
//!
//! No page is written before one that it newly points to: heap pages come first, then the header of the heap, leaves by
//! falling low key, branches by falling low key, and the header of the index.
#![tactic(auto)]

mod key;
mod law;
mod rank;
#[cfg(test)]
mod tests;

pub use key::WriteKey;
pub use law::orders_pages;
pub use rank::{Rank, rank_by_name, rank_of};
