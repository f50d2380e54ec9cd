//! Any event of a member that is up, as moves in the world of pages: whatever was wanted, whatever the answer, and whatever local moves the
//! policy has made of it.
//!
//! The crate has definitions and proofs alone. Its functions do nothing: their contracts are the theorems.
#![tactic(auto)]

ghost use Rattle.page_events.specs.Beside.{OthersStayUp, WritesShow};
ghost use Rattle.page_events.specs.Events.{EventGoes, ToldGoes};
ghost use Rattle.page_events.specs.Quiet.{CommandsLeave};

use cache_structure::keeps_entries_apart;
use needs_law::sends_lawfully;
use page_intents::{
    appends_go, castouts_go, draws_go, frees_go, locals_stay, losses_go, others_stay, owners_go,
    reads_go, tests_go, writes_go,
};
use page_policies::{policies_go, transactions_leave};
use page_protocol::coherent_pages;
use page_world::pages_have_numbers;

/// An event of a member that is up leads to a good world that stands beside what is left, in which the member is still up, and what the
/// group holds of all others is as it was. So does what it is told of its restart or its rebuild.
pub fn events_go()
    ensures event { EventGoes }
    ensures told { ToldGoes }
{
    sends_lawfully();
    coherent_pages();
    pages_have_numbers();
    keeps_entries_apart();
    reads_go();
    tests_go();
    writes_go();
    frees_go();
    appends_go();
    castouts_go();
    draws_go();
    owners_go();
    others_stay();
    losses_go();
    locals_stay();
    transactions_leave();
    policies_go();
}

/// Where an event of one member leaves what the group holds of all others, each of them that was up still is.
pub fn others_stay_up()
    ensures { OthersStayUp }
{}

/// A command that neither reads, writes, unregisters, casts out, loses or rebuilds pages, draws no number and sets no standing leaves all
/// that pages know of the facility.
pub fn commands_leave()
    ensures { CommandsLeave }
{}

/// A disk that tells its pages tells them behind the write of one.
pub fn writes_show()
    ensures { WritesShow }
{
    pages_have_numbers();
}
