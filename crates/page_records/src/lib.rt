//! The records of logs by the pages that they change, for redo page by page.
#![tactic(auto)]

mod map;
mod places;

pub use places::{PageRecords, by_page};
