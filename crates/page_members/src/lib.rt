//! A member of a group that fails, whose restart begins, and that is up again, as moves in the world of pages.
//!
//! The crate has definitions and proofs alone. Its functions do nothing: their contracts are the theorems.
#![tactic(auto)]

ghost use Rattle.page_members.specs.Members.{FailuresGo, OpensGo, RestartsGo};

use cache_structure::keeps_entries_apart;
pub use page_events::{commands_leave, events_go, others_stay_up, writes_show};
use page_protocol::coherent_pages;
use page_world::failures_are_moves;

/// The failure of a member, whatever its standing, leads to a good world beside what it leaves, and what the group holds of all others
/// is as it was.
pub fn failures_go()
    ensures { FailuresGo }
{
    failures_are_moves();
    keeps_entries_apart();
    coherent_pages();
}

/// So do the begin of its restart, and the end of that, behind which it is up.
pub fn restarts_go()
    ensures begin { RestartsGo }
    ensures end { OpensGo }
{
    failures_are_moves();
    coherent_pages();
}
