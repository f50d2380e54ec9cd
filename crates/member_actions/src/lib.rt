//! The page action that choice 18 of a member has in hand.
//!
//! States of an action, page by page in rising order of set and number:
//!
//! | State | What is done |
//! |---|---|
//! | frame | the page gets a frame, which is pinned |
//! | lock | the page's lock in X is negotiated, unless the member has it from before |
//! | test | the page is filled and tested; valid: it is looked at, which tells the next page, that all are met, or that the change isn't needed any more |
//! | draw | the log is appended where it has no room, pages whose bit was lost are filled again, and the number of the change is drawn |
//!
//! A row change and a compensation are made in the event of their draw, without a look before. A change that was wanted of a
//! page that was split meanwhile begins anew with the right page. A full branch is split before its entry is made.
#![tactic(auto)]

mod frames;
mod intents;
mod looks;
mod room;
mod told;

pub use frames::{frame_given, has_frame, unpin_all};
pub use intents::run_intent;
pub use told::{RunNext, run_told};
