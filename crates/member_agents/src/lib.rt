//! Choices 1 to 16 of a member: the seats of its agents.
//!
//! States of a seat, and what each waits for:
//!
//! | State | Its events |
//! |---|---|
//! | free | takes the next transaction of the part |
//! | lock | the negotiation; in conflict: post; refused: the rollback |
//! | post | `wait`; then asleep until the bell is above its value after the `obtain` (or the trial, or the `flag`) |
//! | asleep | the bell; then the lock is tried, or the flag looked at, anew |
//! | unwait | `unwait`, once the need is met or refused and a pair was posted |
//! | frame | choice 18 gives a frame |
//! | read | `read`, disk, `test`; valid: the page is used |
//! | action | choice 18 ends the page action |
//! | raise, flag, lose | that command |
//! | commit | `draw` (the log is appended first where it has no room); then force |
//! | force | the append of the Commit or Ended record, by whichever choice |
//! | writes, release | the changed pages of its page sets are written, its locks given up, and it ends |
//! | leave | `end` of a transaction whose rollback was postponed |
//!
//! Between two states as much is computed as needs no command: locks that the member's own claims cover, wants that follow.
#![tactic(auto)]

mod going;
mod intents;
mod locks;
mod refusals;
mod taking;
mod wants;

pub use going::{action_done, go_on};
pub use intents::seat_intent;
pub use refusals::refuse;
pub use taking::take_for_seat;
