//! Whether the records of logs fit each other: drawn numbers differ, a transaction stands in one log, and each of its records
//! may follow those before it.
#![tactic(auto)]

mod blocks;
mod inverses;
mod laws;
mod passing;
mod ranged;
mod ranges;
mod spots;
mod standing;
mod summary;
mod sums;

pub use laws::passing_laws;
pub use passing::Passing;
pub use ranges::find_first_unfit;
pub use spots::{find_drawn, find_number};
pub use summary::{Summary, summarize};
