//! Whether the pages of tables are right: their heaps by themselves and in their rows, their indexes by themselves, in their links
//! and in their places; and with that whether tables are whole, and else which page isn't right.
#![tactic(auto)]

mod heap;
mod index;
mod leaves;
mod slots;
mod tables;
mod tree;

pub use heap::find_wrong_heap_page;
pub use index::find_wrong_index_page;
pub use slots::{Given, given_in};
pub use tables::{find_unwhole, find_unwhole_page};
