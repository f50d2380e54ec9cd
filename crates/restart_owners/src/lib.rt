//! The page locks of members that fail and restart, beside both worlds: who owns a page claims it in the world of locks, or the facility has
//! retained its lock. So a restart is granted no page that another member owns, takes changes back on pages that are its member's alone, and
//! ends with none.
//!
//! The crate has definitions and proofs alone. Its functions do nothing: their contracts are the theorems.
#![tactic(auto)]

ghost use Rattle.restart_owners.specs.Ends.{EndsFree, EndsGo};
ghost use Rattle.restart_owners.specs.Events.{BothSupply, EventsGo};
ghost use Rattle.restart_owners.specs.Listing.{ListingBegins, ListingGoes, ListingStays, RestartsRetain};
ghost use Rattle.restart_owners.specs.Owners.{OthersOwn, OwnersFail, RestartsBegin};
ghost use Rattle.restart_owners.specs.Stages.{StageBegins, StageCasts, StageEnds, StageStays, StagesGo};
ghost use Rattle.restart_owners.specs.Undrawn.{UndrawnBegins, UndrawnCasts, UndrawnGoes, UndrawnStays, UndrawnTells};

use lock_protocol::{claims_give, keeps_sound, moves_leave_others};
pub use lock_restarts::{local_moves_stay, restarts_follow};
use lock_restarts::{restarts_go, sends_lawfully};
use lock_world::names_have_numbers;
use page_protocol::coherent_pages;
use page_restarts::{ends_go as pages_end, events_go as pages_go, own_still_restarts, owners_go};
pub use page_restarts::{others_still_restart, readings_go};
use page_world::pages_have_numbers;
use retained_pages::{commands_retain, retained_pages_keep_out};

/// The failure of a member, whatever its standing, retains the lock of each page that it owns. So a restart begins, and no event of another
/// member changes that.
pub fn failures_retain()
    ensures failure { OwnersFail }
    ensures begin { RestartsBegin }
    ensures other { OthersOwn }
{
    names_have_numbers();
    claims_give();
    commands_retain();
}

/// Any event of a restart leaves each retained page lock but the one whose record it frees. Through all its events, and those of all other members,
/// it knows the pages of the records that it has looked at; and once all are known, each page whose lock is retained.
pub fn restarts_list()
    ensures retain { RestartsRetain }
    ensures begin { ListingBegins }
    ensures event { ListingGoes }
    ensures other { ListingStays }
{
    pages_have_numbers();
    sends_lawfully();
    commands_retain();
}

/// A restart is granted the lock of a page that its member has, or nobody; and it takes changes back on pages of its member.
pub fn worlds_supply()
    ensures { BothSupply }
{
    pages_have_numbers();
    names_have_numbers();
    claims_give();
    keeps_sound();
    moves_leave_others();
    sends_lawfully();
    restarts_go();
    retained_pages_keep_out();
}

/// Any event of a restart that has read its log, but for its end, is moves of both worlds, behind which each page's owner still claims it, or has
/// its lock retained; and the member owns the page whose lock its restart has.
pub fn events_go()
    ensures { EventsGo }
{
    pages_have_numbers();
    names_have_numbers();
    keeps_sound();
    moves_leave_others();
    sends_lawfully();
    restarts_go();
    commands_retain();
    restarts_list();
    pages_go();
    worlds_supply();
}

/// Where a restart may end, its member owns no page; so the end is one move of pages, behind which it is up.
pub fn ends_go()
    ensures free { EndsFree }
    ensures over { EndsGo }
{
    pages_end();
}

/// A restart begins beside both worlds as soon as its failed member restarts. Any event of it, whether it reads its log yet or has read it, keeps it beside
/// both, but for its end, which is one move of pages. Any other event that changes nothing of the pages leaves it beside them, and so does a castout of its
/// own member.
pub fn stages_go()
    ensures begin { StageBegins }
    ensures event { StagesGo }
    ensures still { StageStays }
    ensures casts { StageCasts }
    ensures over { StageEnds }
{
    pages_have_numbers();
    keeps_sound();
    moves_leave_others();
    sends_lawfully();
    restarts_go();
    commands_retain();
    coherent_pages();
    owners_go();
    readings_go();
    own_still_restarts();
    failures_retain();
    restarts_list();
    events_go();
    ends_go();
}

/// A restart draws no number before all retained pages are recovered, from its begin on, through all its events, those of others, and castouts of its own
/// member. So where it puts a changed page aside, all records that its member has drawn are on disk.
pub fn restarts_stay_undrawn()
    ensures begin { UndrawnBegins }
    ensures event { UndrawnGoes }
    ensures other { UndrawnStays }
    ensures casts { UndrawnCasts }
    ensures quiet { UndrawnTells }
{
    pages_have_numbers();
    sends_lawfully();
    commands_retain();
}
