//! Reads what is left of a source up to a limit, and writes bytes to a sink until all are taken.
#![tactic(auto)]

mod input;
mod output;

pub use input::{ReadError, read_all};
pub use output::write_all;
