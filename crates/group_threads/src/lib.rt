//! A group whose members have a thread each in every phase of its script.
//!
//! In a phase the group is taken apart: what its members share is the value of a turn, at which their threads take one event
//! each in turn, and each thread has its own member. The events of the group itself are taken between the phases.
#![tactic(auto)]

mod errand;
mod event;
mod floor;
mod gate;
mod hall;
mod hand;
mod look;
mod members;
mod phase;
mod rack;
mod run;
mod shared;
mod worker;

pub use gate::{Gate, OpenGate};
pub use hand::Hand;
pub use members::Members;
pub use run::run_threads;
pub use shared::Shared;
