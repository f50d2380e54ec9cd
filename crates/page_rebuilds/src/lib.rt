//! The rebuild of the cache structure from the logs, as moves in the world of pages, beside all members of the group.
//!
//! The crate has definitions and proofs alone. Its functions do nothing: their contracts are the theorems.
#![tactic(auto)]

ghost use Rattle.page_rebuilds.specs.Rebuilds.{EventsGo};

use cache_structure::keeps_entries_apart;
use page_members::{commands_leave, writes_show};
use page_protocol::coherent_pages;
use page_world::losses_are_moves;

/// Any event of a rebuild, whatever was wanted and whatever the answer, leads to a good world that stands beside what it left, where what it
/// writes is what the logs lead to that it has read. What the group holds of its members is as it was.
pub fn events_go()
    ensures { EventsGo }
{
    losses_are_moves();
    commands_leave();
    writes_show();
    keeps_entries_apart();
    coherent_pages();
}
