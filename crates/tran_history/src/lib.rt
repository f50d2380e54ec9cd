//! The history of a run: which transactions were played, in which order and with what fates, and
//! what one thread makes of them.
#![tactic(auto)]

mod change;
mod history;
mod one_thread;
mod ops;
mod same;

pub use ds_model::{Answer, Cycle, Entry, Fate, Reads, Refusal, Report, ReportEntry};
pub use history::History;
pub use one_thread::{replay, replay_entries};
pub use ops::{has_abort, replay_tran};
pub use same::{same_reads, same_rows, same_value};
