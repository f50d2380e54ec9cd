//! Whether numbers are left above the greatest one of logs for the compensations of their open row changes, and the rows of committed
//! transactions as a set of their tables and keys.
#![tactic(auto)]

mod lacking;
mod numbers;

pub use lacking::number_laws;
pub use numbers::are_left;
