//! The events of the members of a group, as moves in the world of pages: of those that are up, whatever their policies, their
//! failures, and the failure of the whole group, with the steps of its restart and its begin. What a member's restart does isn't among
//! them.
//!
//! The crate has definitions and proofs alone. Its functions do nothing: their contracts are the theorems.
#![tactic(auto)]

ghost use Rattle.page_groups.specs.Falls.{CompensationsGo, GroupsFall, GroupsFallAgain, GroupsRise, PagesGo, RecordsGo, RenewalsGo};
ghost use Rattle.page_groups.specs.Groups.{EachIsBeside, FailsStand, GroupsStart, LeadsStand, MembersBegin, MembersFail, MembersGo, ToldGo};

use cache_structure::keeps_entries_apart;
use page_members::{others_stay_up, writes_show};
pub use page_members::{events_go, failures_go};
use page_protocol::{coherent_pages, logs_have_prefixes};
use page_world::{group_failures_are_moves, groups_begin};

/// Where a group stands beside its good world of pages, any event of any of its members that is up is moves, behind which it stands
/// beside a good world again, with all that are up. So is what a member is told of its restart or its rebuild.
pub fn members_go()
    ensures event { MembersGo }
    ensures told { ToldGo }
{
    events_go();
    others_stay_up();
}

/// So is the failure of any member.
pub fn members_fail()
    ensures { MembersFail }
{
    failures_go();
    others_stay_up();
}

/// A member that is up stands beside its group; and where an event of one, or the failure of any, leads, the whole group stands.
pub fn groups_stand()
    ensures beside { EachIsBeside }
    ensures event { LeadsStand }
    ensures failure { FailsStand }
{
    others_stay_up();
}

/// The members of a group as it is made are up. Over a disk without logs it stands beside the start of the world.
pub fn groups_start()
    ensures members { MembersBegin }
    ensures group { GroupsStart }
{
    groups_begin();
    coherent_pages();
    keeps_entries_apart();
}

/// Where a good world of pages stands beside a group, the failure of all its members and of the cache leads to a good world beside what is
/// left: the disk, and the greatest number of the logs on it. So does another failure while the restart is in hand.
pub fn groups_fall()
    ensures falls { GroupsFall }
    ensures again { GroupsFallAgain }
{
    logs_have_prefixes();
    coherent_pages();
}

/// So does each step of the restart: a page that it writes, of a version that is no earlier than the disk's, or anew in the present format, and
/// a record that it appends, that changes no page or takes a change back.
pub fn restarts_go()
    ensures pages { PagesGo }
    ensures renewals { RenewalsGo }
    ensures records { RecordsGo }
    ensures compensations { CompensationsGo }
{
    group_failures_are_moves();
    coherent_pages();
    writes_show();
}

/// Where each page on disk is its last version, the group begins again, with all its members up.
pub fn groups_rise()
    ensures { GroupsRise }
{
    groups_begin();
    groups_start();
    keeps_entries_apart();
    coherent_pages();
}
