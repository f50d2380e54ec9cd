//! What the logs of a group ask of a restart after a stop of the whole group, as plain data.
//!
//! Tails of logs are cut, pages are brought forward, open transactions are undone in falling order of their changes, and
//! each log gets last records (Josten, Mohan, Narang and Teng, "DB2's use of the coupling facility for data sharing", IBM
//! Systems Journal 36(2), 1997).
#![tactic(auto)]

mod ends;
mod falling;
mod greatest;
mod logs;
mod opened;
mod plan;
mod queue;
mod renewal;
mod tails;
mod tran;

pub use ends::Ends;
pub use greatest::Greatest;
pub use log_merge::merging_laws;
pub use logs::Logs;
pub use opened::{Closing, Undo};
pub use page_records::PageRecords;
pub use plan::{Plan, plan_of};
pub use queue::Queue;
pub use renewal::asks_behind;
pub use tails::Tail;
pub use tran::TranNumber;
