//! The pages of some tables, as log records make them of pages of zeros, one record after the other.
//!
//! What is held is these pages alone, and no record.
#![tactic(auto)]

mod apply;
mod lasts;
mod made;
mod range;

pub use apply::copy_of;
pub use made::RedonePages;
pub use range::TableRange;
