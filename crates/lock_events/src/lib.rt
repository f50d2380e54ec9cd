//! Any event of a member that is up, as moves in the world of locks: whatever was wanted, whatever the answer, and whatever local moves the
//! policy has made of it.
//!
//! The crate has definitions and proofs alone. Its functions do nothing: their contracts are the theorems.
#![tactic(auto)]

ghost use Rattle.lock_events.specs.Events.{EventGoes, ToldGoes};
ghost use Rattle.lock_events.specs.Quiet.{CommandsStay, GoesStay};
ghost use Rattle.lock_events.specs.Standings.{StandingsStay};

use lock_intents::{claims_go, closings_go, homes_go, queries_go};
use lock_protocol::keeps_sound;
use lock_world::groups_begin;
use marks_law::claims_stay;
pub use marks_law::{free_slots_stay, slots_stay};
use needs_law::sends_lawfully;

/// An event of a member that is up leads to a world that stands beside what is left, and the member is still up. So does what it is
/// told of its restart or its rebuild.
pub fn events_go()
    ensures event { EventGoes }
    ensures told { ToldGoes }
{
    sends_lawfully();
    slots_stay();
    claims_stay();
    groups_begin();
    keeps_sound();
    claims_go();
    queries_go();
    closings_go();
    homes_go();
}

/// No event of a member's own changes who is up, failed or restarting, nor how many members there are.
pub fn standings_stay()
    ensures { StandingsStay }
{
    sends_lawfully();
}

/// A command that takes no lock, gives none up, asks and answers nothing, and sets no standing changes none of these; and what is left by
/// moves stays so behind it.
pub fn commands_stay()
    ensures command { CommandsStay }
    ensures goes { GoesStay }
{
    groups_begin();
}
