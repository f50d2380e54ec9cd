//! A run that is played once more from its trace, for what the trace doesn't name: which locks a transaction wanted, who held
//! them, and since when.
//!
//! A group is determined by the events that it takes. So where the script is that of the trace, each event is again what its
//! line says; and where one isn't, nothing is told.
#![tactic(auto)]

mod begin;
mod copies;
mod dates;
mod fault;
mod follow;
mod held;
mod looks;
mod top;

pub use fault::ReplayFault;
pub use top::replay;
