//! What becomes of the transactions of a script: each has one fate at most, and the history has them in the order in which they
//! were fixed.
#![tactic(auto)]

mod copies;
mod fates;

pub use copies::{copy_tran, copy_trans};
pub use fates::{Cause, Fates};
