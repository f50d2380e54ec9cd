//! Whether the links and the entries of an index's branches lead where they are to, so that each key has one leaf that covers it.
#![tactic(auto)]

mod branches;
mod entries;
mod laws;
mod links;
mod nodes;
mod pages;

pub use entries::entries_in;
pub use laws::linked_laws;
pub use links::rights_of;
pub use nodes::{Node, node_of, read_nodes};
pub use pages::is_linked;
