//! The negotiation of a lock with the members that may hold it: obtain, ask each of them, look at their answers, grant.
#![tactic(auto)]

mod negotiation;

pub use negotiation::{Negotiation, Progress};
