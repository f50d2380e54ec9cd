//! What the logs of a disk tell: before a run the rows that they stand for, and how many records each has; and behind it whether
//! they bear its report out.
#![tactic(auto)]

mod check;
mod fault;
mod fresh;
mod keeps;
mod kept;
mod laws;
mod logs;
mod made;
mod opening;
mod reading;
mod rows;
mod survey;
mod surveyed;
mod taken;
mod whole;

pub use check::check_report;
pub use fault::LogsFault;
pub use laws::kept_laws;
pub use log_record::Log;
pub use logs::read_logs;
pub use opening::{Opening, read_opening};
