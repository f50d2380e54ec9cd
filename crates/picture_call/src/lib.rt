//! The call that reads a report with its trace, and writes its picture, or what the trace tells of one transaction; where the script
//! stands before it, also what a replay of that tells.
#![tactic(auto)]

mod answer;
mod input;
mod order;
mod sizes;
mod status;
mod style;
mod top;
mod words;

pub use order::Order;
pub use status::Status;
pub use top::call;
pub use words::read_words;
