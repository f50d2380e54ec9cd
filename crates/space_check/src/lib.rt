//! Whether a disk is sound, told by reading all of it and writing nothing.
#![tactic(auto)]

mod check;
mod clauses;
mod laws;
mod ranges;
mod scan;
mod told;
mod verdict;
mod walk;

pub use check::check_disk;
pub use disk_spots::Spot;
pub use laws::verdict_laws;
pub use verdict::{Breach, Clause, Verdict};
