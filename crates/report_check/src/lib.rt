//! The check of a report: before a run's report is printed, it is held against the script, the rows at the opening and the
//! logs as they are read back from the disk.
#![tactic(auto)]

mod abort;
mod commits;
mod effect;
mod laws;
mod ledger;
mod logged;
mod numbered;
mod once;
mod order;
mod rows;
mod same;
mod sound;

pub use laws::soundness_laws;
pub use logged::are_logged;
pub use rows::rows_of;
pub use sound::{is_sound, sound_rows};
