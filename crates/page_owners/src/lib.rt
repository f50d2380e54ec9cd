//! The page locks of a group in its world of locks: who owns a page claims it there in X. So no lock of a page is granted that another
//! member owns, which the world of pages takes as given.
//!
//! The crate has definitions and proofs alone. Its functions do nothing: their contracts are the theorems.
#![tactic(auto)]

ghost use Rattle.page_owners.specs.Casting.{CastsGo, DownCastsNone, RestsKeepCast};
ghost use Rattle.page_owners.specs.Groups.{EventsGo, FailuresGo, GroupsBegin, GroupsStart, LocksSupply, ToldGo};
ghost use Rattle.page_owners.specs.Owners.{BeginInX, StayInX, ToldInX};
ghost use Rattle.page_owners.specs.Resting.{DownIsBare, RestsBare, RestsLeave};
ghost use Rattle.page_owners.specs.Runs.{RunsStand};

use cache_structure::keeps_entries_apart;
pub use lock_events::commands_stay;
use lock_events::events_go as locks_go;
use lock_protocol::{claims_give, keeps_sound, moves_leave_others};
use lock_world::{books_tell, failures_are_moves, groups_begin};
use marks_law::{claims_stay, slots_stay};
pub use needs_law::sends_lawfully;
use page_groups::{events_go as pages_go, groups_stand, groups_start as pages_start};
pub use page_groups::{failures_go, groups_fall};
use page_intents::castouts_go;
use page_members::{commands_leave, writes_show};
pub use page_members::{events_go, others_stay_up, restarts_go};
pub use page_policies::own_claims_stay;
use page_protocol::coherent_pages;
use page_world::pages_have_numbers;

/// A member claims its pages in X, through all of its events.
pub fn pages_in_x()
    ensures begin { BeginInX }
    ensures event { StayInX }
    ensures told { ToldInX }
{
    claims_stay();
    own_claims_stay();
    sends_lawfully();
}

/// In a group that stands beside both worlds no two page claims of a member are on one page, and the lock of a page is granted where the
/// member has it, or nobody.
pub fn locks_supply()
    ensures { LocksSupply }
{
    pages_have_numbers();
    books_tell();
    claims_give();
    keeps_sound();
    moves_leave_others();
    locks_go();
    sends_lawfully();
}

/// So any event of any of its members that is up is moves of both worlds, behind which it stands beside both again. So is what a member is
/// told of its restart or its rebuild.
pub fn members_go()
    ensures event { EventsGo }
    ensures told { ToldGo }
{
    books_tell();
    keeps_sound();
    moves_leave_others();
    slots_stay();
    locks_go();
    pages_go();
    groups_stand();
    pages_in_x();
    locks_supply();
}

/// So is the failure of any member.
pub fn members_fail()
    ensures { FailuresGo }
{
    keeps_sound();
    failures_are_moves();
    failures_go();
    groups_stand();
}

/// A group as it is made, whatever its world of pages, stands beside the start of the world of locks too; and over a disk without logs beside
/// the start of both worlds.
pub fn groups_start()
    ensures begin { GroupsBegin }
    ensures start { GroupsStart }
{
    keeps_sound();
    slots_stay();
    groups_begin();
    pages_start();
    pages_in_x();
}

/// So for each list of events from there on, of members that are up, and of failures, the group stands beside a good world of pages that
/// moves lead to, and a sound world of locks.
pub fn groups_run()
    ensures { RunsStand }
{
    groups_start();
    members_go();
    members_fail();
}

/// While its restart is in hand a member leaves all that pages know of the facility, and the disk, in each event of its own but those of a castout,
/// whatever its policy.
pub fn resting_members_leave()
    ensures { RestsLeave }
{
    sends_lawfully();
    commands_leave();
}

/// Behind its failure, and behind each event of it while its restart is in hand, up to the one in which it is up, a member has nothing in its frames,
/// and no record to write, whatever its policy: that may place a page in a frame, but reads none.
pub fn resting_members_are_bare()
    ensures begin { DownIsBare }
    ensures event { RestsBare }
{}

/// So a member that has failed has no castout in hand, and each event of it leaves what it has, while its restart is in hand, but for those of a castout. These,
/// whatever its standing and its policy, are moves of the page that it casts out, and leave all else that the group holds.
pub fn resting_members_cast()
    ensures down { DownCastsNone }
    ensures keep { RestsKeepCast }
    ensures cast { CastsGo }
{
    keeps_entries_apart();
    sends_lawfully();
    castouts_go();
    writes_show();
    coherent_pages();
}
