//! Whether rows are changed under one transaction at a time, how many row changes are open, and how many rows the committed ones
//! leave: of the rows of some tables, one record after the other.
#![tactic(auto)]

mod held;
mod laws;
mod row;
mod scan;
mod told;

pub use laws::{merged_laws, order_laws, turn_laws};
pub use scan::Turns;
pub use told::{OutOfTurn, Told};
