//! Deadlocks: cycles of the waits-for graph, which has a pair for each transaction that waits for another.
#![tactic(auto)]

mod cycle;
mod step;
#[cfg(test)]
mod tests;
mod waiters;

pub use cycle::find_cycle;
