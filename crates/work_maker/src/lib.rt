//! Scripts that are drawn from a number, as work for a group.
#![tactic(auto)]

mod laws;
mod operation;
mod script;
mod transaction;

pub use draw_generator::Generator;
pub use laws::making_laws;
pub use script::make_script;
