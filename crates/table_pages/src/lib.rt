//! Whether the bytes of a page are right for a page of a table, all of them: those of its fields, and those that are no field's.
#![tactic(auto)]

mod bytes;
mod heap;
mod index;
mod node;

pub use bytes::count_in;
pub use heap::{given_in, is_heap_header, is_row_page};
pub use index::is_index_header;
pub use node::is_node_page;
