//! What a member holds while it rebuilds the lost group buffer pool, and the one event that may change it.
//!
//! One member claims the rebuild. It reads the logs of all members, and brings each page that they name forward from the
//! disk by their merged records: what was written to the lost cache and not cast out stands in these logs (Josten, Mohan,
//! Narang and Teng, "DB2's use of the coupling facility for data sharing", IBM Systems Journal 36(2), 1997). The logs are
//! read after the claim, and anew after each claim. That the cache is rebuilt is said only when each of these pages was
//! brought forward, and written where that changed it.
//!
//! A policy says what it wants. The event is made in one call: the intent is tested, what it needs goes to the facility or
//! to the disk, and the answer is settled in full. No bytes of pages or logs leave this crate but to the disk.
#![tactic(auto)]

mod calls;
mod intent;
mod lending;
mod logs;
mod need;
mod policy;
mod resources;
mod settle;
mod step;
mod told;

pub use intent::{RebuildFault, RebuildIntent, RebuildSent, RebuildTest};
pub use member_intents::{Answered, Event, Sent};
pub use policy::RebuildPolicy;
pub use resources::Rebuild;
pub use told::RebuildTold;
