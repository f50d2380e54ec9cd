//! One member of a group: what it holds and wants, its restart and its rebuild of the cache, and each event of it.
#![tactic(auto)]

mod adopt;
mod event;
mod failure;
mod fates;
mod fault;
mod own_step;
mod part;
mod ready;
mod rebuild_step;
mod rebuilding;
mod restart_step;
mod restarting;
mod resting;
mod sizes;
mod stepped;
mod tell;

pub use choice_bits::{CHOICES, count_choices, has_choice, nth_choice};
pub use event::step_one;
pub use fault::EventFault;
pub use member_resources::{Policy, Resources};
pub use part::MemberPart;
pub use rebuild_resources::RebuildSent;
pub use rebuilding::Rebuilding;
pub use restart_marks::RestartSent;
pub use restarting::Restarting;
pub use sizes::GroupSizes;
pub use stepped::Stepped;
