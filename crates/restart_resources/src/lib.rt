//! What a restarting member holds, and the one event that may change it.
//!
//! A policy says what it wants. The event is made in one call: the intent is tested, its command goes to the facility or to
//! the disk, the answer is settled in full, and then the policy goes on by local moves. A retained page is brought forward
//! by the member's own log in the event that finds its copy valid, and no page leaves this crate but then.
#![tactic(auto)]

mod calls;
mod forward;
mod lending;
mod outcome;
mod policy;
mod resources;
mod settle;
mod step;

pub use member_intents::{Event, Intent, Outcome};
pub use outcome::RestartOutcome;
pub use policy::RestartPolicy;
pub use resources::RestartResources;
