//! What the policy of a member keeps, and small steps that several of its choices take.
//!
//! The policy decides what is wanted next. What the member holds (claims, frames, log records, transactions) it asks of the
//! member's marks, and it changes them by their local moves alone.
#![tactic(auto)]

mod choices;
mod closing;
mod frames;
mod points;
mod queues;
mod retry;
mod run;
mod seat;
mod state;

pub use choices::{
    CASTOUT, CHOICES, CYCLES, ChoiceMask, DUTY, PAGES, QUERY, REBUILD, RETRY, Standing,
};
pub use closing::{closing_intent, purge_after, release_intent};
pub use frames::{fill_intent, find_for_reader, test_intent, unpin_for_reader, write_intent};
pub use member_resources::{Policy, Resources};
pub use points::Points;
pub use queues::{next_run, submit, submit_first};
pub use retry::{RetryState, Rollback};
pub use run::{FrameRequest, Run, RunState, Service, Work};
pub use seat::{Posted, Seat, SeatState};
pub use state::MemberState;
