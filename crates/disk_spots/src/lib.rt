//! Spots of a disk: where something was found that doesn't fit.
#![tactic(auto)]

mod drawn;
mod search;
mod spot;

pub use drawn::drawn_spot_of;
pub use search::{next_place, spot_of};
pub use spot::Spot;
