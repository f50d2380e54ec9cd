//! Whether each log record that changes a row met that row in its page, and tells it, and each other leaves the slots of rows to
//! their keys.
#![tactic(auto)]

mod owners;
mod parts;
mod patches;
mod scan;
mod slot;
mod unstood;

pub use scan::Standing;
pub use unstood::{Unstood, sooner, unstood_laws};
