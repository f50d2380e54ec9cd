//! Whether the pages of a disk have what stands in its logs before the places from which they are read on.
#![tactic(auto)]

mod first;
mod kept;
mod spot;
mod unmet;

pub use kept::find_first_unkept;
