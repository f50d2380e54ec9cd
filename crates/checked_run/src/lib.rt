//! A run of a script by a group, whose report is held against the script, the rows before it and the logs before it is told.
#![tactic(auto)]

mod account;
mod copies;
mod ended;
mod fault;
mod logs;
mod order;
mod plain;
mod report;
mod run;
mod settle;
mod show;
mod trace;

pub use account::{Account, CauseList, FailList, Journal, no_account};
pub use ended::{Ended, Outcome, Ran};
pub use group_core::{Cause, RunFault};
pub use group_threads::{Gate, OpenGate};
pub use plain::plain_report;
pub use run::run_script;
pub use show::show_disk;
