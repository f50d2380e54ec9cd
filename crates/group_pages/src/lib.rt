//! The pages of a group beside a good world of pages: the fact that the group is to carry from event to event, beside that of its locks, and that
//! each event of a member that is up is moves of that world, behind which it holds again. What no contract below says yet is a premise.
//!
//! The crate has definitions and proofs alone. Its functions do nothing: their contracts are the theorems.
#![tactic(auto)]

ghost use Rattle.group_pages.specs.Members.{MemberStepsGo};
ghost use Rattle.group_pages.specs.Newest.{TiedIsSound};

pub use group_locks::members_fail;
use group_locks::{member_steps_go as locks_step, moves_spare};
use lock_protocol::claims_give;
use lock_world::books_tell;
use page_numbers::numbers_are_recorded;
use page_owners::own_claims_stay;
pub use page_owners::{
    commands_stay, events_go, failures_go, groups_fall, others_stay_up, pages_in_x, restarts_go,
    resting_members_are_bare, resting_members_cast, resting_members_leave, sends_lawfully,
};
pub use page_rebuilds::events_go as rebuilds_go;
use page_world::{copies_are_newest, pages_have_numbers};
pub use restart_owners::{
    ends_go, failures_retain, local_moves_stay, others_still_restart, readings_go, restarts_follow,
    restarts_list, restarts_stay_undrawn, stages_go,
};
use retained_pages::{commands_retain, retained_pages_keep_out};

/// An event of a member that is up, in which no call of the disk failed, is moves, behind which the group still stands beside a good world: its own,
/// whatever its policy, or that of its rebuild. All other members stand there as they did.
pub fn member_steps_go()
    ensures { MemberStepsGo }
{
    pages_have_numbers();
    books_tell();
    claims_give();
    sends_lawfully();
    commands_stay();
    commands_retain();
    retained_pages_keep_out();
    own_claims_stay();
    pages_in_x();
    events_go();
    numbers_are_recorded();
    rebuilds_go();
    others_stay_up();
    others_still_restart();
    failures_retain();
    restarts_list();
    restarts_stay_undrawn();
    locks_step();
    moves_spare();
}

/// Beside a good world of pages a frame that its member may use is the group's copy, unless the member has changed it, which has the page's lock
/// then; no two members have that; what isn't changed in the cache structure is on disk; and while that is lost, no frame may be used.
pub fn pages_are_sound()
    ensures { TiedIsSound }
{
    pages_have_numbers();
    copies_are_newest();
}
