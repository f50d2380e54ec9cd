//! The locks of a group beside a sound world of locks: the fact that the group is to carry from event to event, and which moves of that
//! world each event is, by what it befalls: the group as a whole, a phase that begins, a member that fails, one that is up, and one that
//! restarts. What no contract below says yet is a premise.
//!
//! The crate has definitions and proofs alone. Its functions do nothing: their contracts are the theorems.
#![tactic(auto)]

ghost use Rattle.group_locks.specs.Adopting.{AdoptionsGo};
ghost use Rattle.group_locks.specs.Agreeing.{TiedAgree};
ghost use Rattle.group_locks.specs.Beginning.{StartsTied};
ghost use Rattle.group_locks.specs.Events.{MovesSpare};
ghost use Rattle.group_locks.specs.Handing.{HandsOnMoves};
ghost use Rattle.group_locks.specs.Members.{MemberStepsMoves};
ghost use Rattle.group_locks.specs.Phases.{PhasesMove};
ghost use Rattle.group_locks.specs.Resting.{RestingStepsMove};
ghost use Rattle.group_locks.specs.Restarts.{RestartStepsMove};
ghost use Rattle.group_locks.specs.Runs.{PlainRunsStand, PlainRunsStay, RunsStand};
ghost use Rattle.group_locks.specs.Stands.{RestingsWaitNone};
ghost use Rattle.group_locks.specs.Taken.{EventsMove};
ghost use Rattle.group_locks.specs.Whole.{AnewMoves, GroupFailsTied, MemberFailsMoves};

use cache_structure::CacheFace;
use ds_disk::Disk;
pub use lock_members::{members_fail, members_go};
use lock_members::{commands_stay, events_go, members_keep_free};
use lock_protocol::{claims_give, keeps_sound, moves_leave_others};
use lock_restarts::{restarts_follow, restarts_go};
use lock_world::{
    books_change, books_tell, failures_are_moves, groups_begin, names_have_numbers,
    queries_are_moves, rollbacks_are_moves, rollbacks_change,
};
use marks_law::{claims_stay, free_slots_stay, slots_stay};
use needs_law::sends_lawfully;
use put_records::resting_puts_none;

/// A group that is as it was made stands beside the start of the world of locks.
pub fn groups_start()
    ensures { StartsTied }
{
    slots_stay();
    free_slots_stay();
    keeps_sound();
    groups_begin();
}

/// A failure of the group leaves its world of locks until the group restart is done; then the world begins anew.
pub fn groups_go()
    ensures fails { GroupFailsTied }
    ensures anew { AnewMoves }
{
    slots_stay();
    free_slots_stay();
    keeps_sound();
    groups_begin();
}

/// The failure of one of its members is a move, behind which the group still stands beside a sound world.
pub fn member_failures_go()
    ensures { MemberFailsMoves }
{
    slots_stay();
    free_slots_stay();
    keeps_sound();
    members_fail();
}

/// An event of a member that is up, in which it doesn't fail, is moves, behind which the group still stands beside a sound world.
pub fn member_steps_go()
    ensures { MemberStepsMoves }
{
    keeps_sound();
    members_go();
    members_keep_free();
}

/// The claims of a member that has failed may be handed on to the rollbacks that its transactions are from then on.
pub fn claims_handed_on()
    ensures { HandsOnMoves }
{
    keeps_sound();
}

/// The begin of a phase is a restart of each member that it brings back.
pub fn phases_go()
    ensures { PhasesMove }
{
    keeps_sound();
    failures_are_moves();
    groups_begin();
}

/// What a restart leaves open becomes rollbacks of its member: the claims of the failed transactions are theirs, in the modes that they need.
pub fn adoptions_go()
    ensures { AdoptionsGo }
{
    names_have_numbers();
    books_tell();
    books_change();
    rollbacks_change();
    rollbacks_are_moves();
    slots_stay();
    groups_begin();
}

/// An event of a restart, with what it hands over to its member, is moves, behind which the group still stands beside a sound world. As long as
/// the restart goes on, and has handed nothing over, they leave the claims of the member's rollbacks, but for those on the name whose record
/// the event has freed.
pub fn member_restarts_go()
    ensures { RestartStepsMove }
{
    names_have_numbers();
    keeps_sound();
    groups_begin();
    books_tell();
    rollbacks_change();
    slots_stay();
    events_go();
    restarts_go();
    restarts_follow();
    adoptions_go();
    members_keep_free();
    resting_puts_none();
}

/// Its other events while it restarts, in which it answers queries, asks and rebuilds the cache, are moves too, which change no claim.
pub fn resting_members_go()
    ensures { RestingStepsMove }
{
    names_have_numbers();
    keeps_sound();
    groups_begin();
    queries_are_moves();
    books_tell();
    rollbacks_change();
    slots_stay();
    claims_stay();
    commands_stay();
    sends_lawfully();
    members_keep_free();
    resting_puts_none();
}

/// As long as the restart of a member is in hand, nothing waits in the member's own log buffer.
pub fn resting_members_wait()
    ensures { RestingsWaitNone }
{}

/// Any event of a group, unless it is refused, is moves, behind which the group still stands beside a sound world, given the claims of the
/// transactions that a restart hands over to its member.
pub fn groups_step<D: Disk, C: CacheFace, P>()
    ensures { EventsMove P C.directory D.alive D.contents D.faults }
{
    groups_go();
    phases_go();
    member_failures_go();
    member_steps_go();
    member_restarts_go();
    resting_members_go();
}

/// The moves of an event are those of the member whose event it is, or restarts of members, unless the group restart is done with it; and they
/// leave the claims of all other members as they are.
pub fn moves_spare()
    ensures { MovesSpare }
{
    moves_leave_others();
}

/// In a group that stands beside a sound world no two claims that its members know of conflict, and each stands behind what the lock table
/// has for its member.
pub fn claims_agree()
    ensures { TiedAgree }
{
    claims_give();
}

/// Wherever events lead a group that has just started, none refused, it stands beside a sound world that moves lead to from the start, and
/// its claims agree: if its events find the claims of the transactions that restarts hand over, and so if no restart hands any over. So it
/// is behind each event, as long as no restart has handed any over.
pub fn groups_run<D: Disk, C: CacheFace, P>()
    ensures runs { RunsStand P C.directory D.alive D.contents D.faults }
    ensures plain { PlainRunsStand P C.directory D.alive D.contents D.faults }
    ensures stays { PlainRunsStay P C.directory D.alive D.contents D.faults }
{
    groups_start();
    claims_agree();
    groups_step::<D, C, P>();
}
