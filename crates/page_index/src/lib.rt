//! Where each page stands among numbered places, found without a walk over them, and the order in which the places
//! were used.
#![tactic(auto)]

mod index;
mod order;
mod page_hash;
mod place;
mod place_hash;

pub use index::PageIndex;
pub use order::UseOrder;
pub use place::HoldsPage;
