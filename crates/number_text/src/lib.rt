//! Numbers as decimal digits.
#![tactic(auto)]

mod number;
mod wide;

pub use number::number_of;
pub use wide::wide_number_of;
