//! Choice 22 of a member: postponed rollbacks, which are tried in turn.
//!
//! States of the rollback that is tried:
//!
//! | State | What is done |
//! |---|---|
//! | none | waits for the bell of the oldest try; then the first rollback is tried that was last tried before this bell |
//! | frame | choice 18 gives a frame for the page of its newest change |
//! | lock | the page's lock in X is negotiated, once choice 18 has no action in hand, unless the member has it by then; still retained: the rollback waits on, and the next one is tried |
//! | action | choice 18 takes the change back, before all that waits for it |
//! | force | the append of the Ended record, by whichever choice |
//! | writes, release | the changed pages of its page sets are written, its locks given up, and it ends |
#![tactic(auto)]

mod intents;
mod taking;
mod trying;

pub use intents::retry_intent;
pub use taking::take_for_retry;
pub use trying::{frame_given, is_locking, submit_where_locked, taken_back, waits_on};
