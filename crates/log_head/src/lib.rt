//! One log that is read by blocks.
//!
//! A head says which bytes of the log it wants, takes them, and gives the records that are whole. What it keeps in hand are
//! the bytes that were read and of which no record is taken: a block, and before it less than a record.
#![tactic(auto)]

mod head;
mod laws;
mod records;
mod standing;

pub use head::Head;
pub use laws::{head_laws, whole_laws};
pub use standing::Standing;
