//! The coupling facility of a group: the commands by which its members use the lock structure, the cache structure, the
//! list structure and the counter of log record numbers.
//!
//! The commands are those of DB2's use of the coupling facility (Josten, Mohan, Narang and Teng, IBM Systems Journal
//! 36(2), 1997). Each is executed in one step.
#![tactic(auto)]

mod cache_commands;
mod clean;
mod command;
mod conditions;
mod counting;
mod facility;
mod list_commands;
mod lock_commands;

pub use command::{Command, Indexes, Reply};
pub use facility::Facility;
pub use list_structure::{Asker, MemberStatus, Query};
