//! The call that plays a script on a disk and reports what became of it.
#![tactic(auto)]

mod copies;
mod finish;
mod prepare;
mod recoveries;
mod run;
mod status;
mod summary;
mod telling;
mod top;

pub use checked_run::{Cause, CauseList, FailList, Gate, Journal, OpenGate};
pub use finish::Finished;
pub use status::Status;
pub use top::play;
