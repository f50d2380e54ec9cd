//! What a trace tells of one transaction, in plain lines.
#![tactic(auto)]

mod course;
mod known;
mod named;
mod phrases;
mod story;
mod waits;

pub use story::story_of;
