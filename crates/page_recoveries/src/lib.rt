//! Failures and restarts beside the pages of a group: what befalls a member that restarts, or fails, and a whole group, as moves of its world of
//! pages, behind which the group still stands beside a good world. So it is with any event, while no group restart is in hand. What no contract
//! below says yet is a premise.
//!
//! The crate has definitions and proofs alone. Its functions do nothing: their contracts are the theorems.
#![tactic(auto)]

ghost use Rattle.page_recoveries.specs.Failing.{MemberFailsGo};
ghost use Rattle.page_recoveries.specs.Groups.{GroupFailsGo};
ghost use Rattle.page_recoveries.specs.Phases.{PhasesGo};
ghost use Rattle.page_recoveries.specs.Resting.{RestingStepsGo};
ghost use Rattle.page_recoveries.specs.Restarts.{RestartStepsGo};
ghost use Rattle.page_recoveries.specs.Taken.{EventsGo};

use cache_structure::CacheFace;
use ds_disk::Disk;
pub use group_pages::pages_in_x;
use group_pages::{
    commands_stay, ends_go, events_go as pages_go, failures_go, failures_retain, groups_fall,
    local_moves_stay, member_steps_go, members_fail, others_stay_up, others_still_restart,
    readings_go, rebuilds_go, restarts_follow, restarts_go, restarts_list, restarts_stay_undrawn,
    resting_members_are_bare, resting_members_cast, resting_members_leave, sends_lawfully,
    stages_go,
};
use lock_world::{books_tell, names_have_numbers};
use page_world::{losses_are_moves, pages_have_numbers};
use retained_pages::commands_retain;

/// An event of a member whose restart is in hand, that isn't the restart's, leaves its restart beside the pages: its own, castouts among them, and that of
/// its rebuild.
pub fn resting_members_go()
    ensures { RestingStepsGo }
{
    commands_stay();
    commands_retain();
    sends_lawfully();
    rebuilds_go();
    resting_members_leave();
    resting_members_are_bare();
    resting_members_cast();
    others_stay_up();
    others_still_restart();
    failures_retain();
    restarts_list();
    restarts_stay_undrawn();
    stages_go();
}

/// The failure of a member, whatever its standing, is moves behind what a call of the disk has left that has failed.
pub fn member_failures_go()
    ensures { MemberFailsGo }
{
    books_tell();
    members_fail();
    commands_retain();
    failures_go();
    resting_members_are_bare();
    others_stay_up();
    others_still_restart();
    failures_retain();
    restarts_list();
    restarts_stay_undrawn();
}

/// Any event of a restart is moves, also the one with which it ends, behind which its member is up.
pub fn member_restarts_go()
    ensures { RestartStepsGo }
{
    pages_have_numbers();
    names_have_numbers();
    books_tell();
    local_moves_stay();
    restarts_follow();
    commands_retain();
    pages_go();
    pages_in_x();
    resting_members_are_bare();
    resting_members_cast();
    others_stay_up();
    others_still_restart();
    failures_retain();
    restarts_list();
    restarts_stay_undrawn();
    stages_go();
    ends_go();
}

/// The begin of a phase is moves: the restarts of the members that it brings back begin.
pub fn phases_go()
    ensures { PhasesGo }
{
    losses_are_moves();
    restarts_go();
    readings_go();
    others_stay_up();
    others_still_restart();
    failures_retain();
    restarts_list();
    restarts_stay_undrawn();
}

/// The failure of the whole group leads to a good world beside the disk alone, and so does one while its restart is in hand.
pub fn groups_fail()
    ensures { GroupFailsGo }
{
    groups_fall();
}

/// Any event of a group that isn't refused, while no group restart is in hand, is moves, behind which the group still stands beside a good world, given
/// what no contract says yet.
pub fn events_go<D: Disk, C: CacheFace, P>()
    ensures { EventsGo P C.directory D.alive D.contents D.faults }
{
    member_steps_go();
    resting_members_go();
    member_failures_go();
    member_restarts_go();
    phases_go();
    groups_fail();
}
