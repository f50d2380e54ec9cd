//! Whether the pages of a table, of its heap and of its index, are right by themselves, and how many of them log records make.
#![tactic(auto)]

mod blank;
mod heap;
mod index;
mod laws;

pub use blank::is_blank;
pub use heap::{heap_end, heap_page_stands};
pub use index::{index_end, index_page_stands};
pub use laws::stands_laws;
