//! The restart of one failed member, beside the members that are up: what is wanted next.
//!
//! It has four phases (Josten, Mohan, Narang and Teng, "DB2's use of the coupling facility for data sharing", IBM Systems
//! Journal 36(2), 1997). Log initialization reads the member's log and cuts its tail. Current status rebuild finds the
//! transactions that it leaves open, and lists the retained locks. Forward recovery takes each retained page, brings it
//! forward by the own log, writes it and frees its lock; then the locks of table spaces and rows are freed that no row
//! change of an open transaction needs. Backward recovery takes the open transactions back, each change under the lock of
//! its page, and frees their locks when their Ended record is stable.
#![tactic(auto)]

mod asking;
mod backward;
mod forward;
mod restart;
mod stage;

pub use restart::MemberRestart;
pub use restart_resources::RestartResources;
pub use stage::{Ended, Stage};
