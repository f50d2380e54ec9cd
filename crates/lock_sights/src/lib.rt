//! What was seen of the locks and flags that transactions wanted, and the lines that tell it.
#![tactic(auto)]

mod lines;
mod locks;
mod roster;
mod sight;
mod words;

pub use lines::put_sights;
pub use locks::{Lock, row_lock, space_lock};
pub use roster::{number_named, roster_of, tran_at};
pub use sight::{Grip, Matter, Sight};
