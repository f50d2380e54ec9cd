//! The rebuild of the lost group buffer pool by one member: what is wanted next.
//!
//! The member claims the rebuild, and waits where another has the claim. It reads the logs of all members, brings each page
//! that they name forward from the disk, says that the cache is rebuilt, and gives the claim up (Josten, Mohan, Narang and
//! Teng, "DB2's use of the coupling facility for data sharing", IBM Systems Journal 36(2), 1997).
#![tactic(auto)]

mod machine;
mod stage;

pub use machine::CacheRebuild;
pub use stage::Ended;
