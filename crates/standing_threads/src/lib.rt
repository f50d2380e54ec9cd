//! Threads that stand through a whole run, and are handed one value each to work on, again and again.
//!
//! A value is moved to a standing thread through a queue of its own and back. What a thread hasn't begun is taken back by the leading one,
//! which then works on it itself: so a thread that can't be started is wanting for nothing but its time.
#![tactic(auto)]

mod ends;
mod lane;
mod law;
mod lead;
mod message;
mod pool;
mod post;
mod signal;
mod stand;
mod task;
#[cfg(test)]
mod tests;

pub use pool::Pool;
pub use stand::{Leader, with_threads};
pub use task::Task;
