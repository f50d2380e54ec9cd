//! Group restart: the disk after a stop of the whole group, made whole again from the logs of all members.
//!
//! All logs are read, and their tails are cut. Each page that the logs name is brought forward. The changes of open
//! transactions are undone in falling order of their numbers, with compensations in the logs of their members, and an Ended
//! record closes each of these transactions. Where a log with a record of version 1 hasn't seen the end of a restart, all pages
//! of version 1 that the header pages of page sets count are written in version 2. A Checkpoint that names its own place, and a RestartEnd, are appended at once to each log that isn't empty and doesn't
//! end with a RestartEnd of version 2 (Josten, Mohan, Narang and Teng, "DB2's use of the coupling facility for data sharing", IBM Systems Journal 36(2), 1997).
//! Only the disk is used.
#![tactic(auto)]

mod append;
mod calls;
mod course;
mod disk_calls;
mod machine;
mod page_number;
mod records;
mod renewal;
mod reply;
mod stage;
mod undo;

pub use calls::{Call, State};
pub use machine::GroupRestart;
