//! The events of the members of a group, as moves in the world of locks.
//!
//! The crate has definitions and proofs alone. Its functions do nothing: their contracts are the theorems.
#![tactic(auto)]

ghost use Rattle.lock_members.specs.Members.{FailuresGo, StepsGo, StepsKeepFree};

use lock_events::{free_slots_stay, slots_stay, standings_stay};
pub use lock_events::{commands_stay, events_go};
use lock_world::failures_are_moves;

/// Each event of a member that is up, in which it doesn't fail, is moves: its own, with the fates of its transactions entered, or that of
/// its rebuild. It is still up behind it.
pub fn members_go()
    ensures { StepsGo }
{
    slots_stay();
    events_go();
    standings_stay();
    commands_stay();
}

/// So is the failure of a member, whatever its standing.
pub fn members_fail()
    ensures { FailuresGo }
{
    failures_are_moves();
}

/// Behind each event of a member in which it doesn't fail, whatever its standing, its agents without transactions still have no claims.
pub fn members_keep_free()
    ensures { StepsKeepFree }
{
    free_slots_stay();
}
