//! The intents of a member's restart about pages, as moves in the world of pages: what it does with the page in its hand, with page locks and
//! with its log buffer.
//!
//! The crate has definitions and proofs alone. Its functions do nothing: their contracts are the theorems.
#![tactic(auto)]

ghost use Rattle.page_restarts.specs.Beside.{OthersRestart, OwnRestarts};
ghost use Rattle.page_restarts.specs.Bringing.{BringGoes, ReadsOn, TestsOn};
ghost use Rattle.page_restarts.specs.Events.{EndGoes, EventsGo};
ghost use Rattle.page_restarts.specs.Hands.{FillGoes, ForwardGoes, PutsDown, ReadGoes, TakesUp, TestGoes, WriteGoes};
ghost use Rattle.page_restarts.specs.Locals.{PutsAside, ReachesGo};
ghost use Rattle.page_restarts.specs.Locks.{AppendGoes, GiveUpGoes, LockGoes, StayGoes};
ghost use Rattle.page_restarts.specs.Reading.{ReadingBegins, ReadingGoes, ReadingOwns};
ghost use Rattle.page_restarts.specs.Undoes.{UndoGoes};

use cache_structure::keeps_entries_apart;
use page_members::{commands_leave, restarts_go};
use page_protocol::coherent_pages;
use page_world::{
    draws_are_moves, frames_are_moves, losses_are_moves, owners_are_moves, pages_have_numbers,
    reads_are_moves, refusals_stay, writes_are_moves,
};

/// A page that is taken up, and one that is put aside: without changes, or with changes that are on disk in the own log.
pub fn hands_go()
    ensures up { TakesUp }
    ensures down { PutsDown }
    ensures aside { PutsAside }
{
    frames_are_moves();
}

/// All that the policy of a restart does by local moves: pages that it takes up and puts aside, and transactions that it closes.
pub fn locals_go()
    ensures { ReachesGo }
{
    hands_go();
    coherent_pages();
}

/// A page that is read, whatever the reply, and one that is filled from disk.
pub fn reads_go()
    ensures read { ReadGoes }
    ensures fill { FillGoes }
{
    reads_are_moves();
    refusals_stay();
    frames_are_moves();
}

/// A page whose bit is tested, and one that the own log brings to its last version.
pub fn forwards_go()
    ensures test { TestGoes }
    ensures forward { ForwardGoes }
{
    frames_are_moves();
}

/// The page in hand is brought forward in the event in which its bit is seen to be set: whatever the reply to a read or a test of it.
pub fn hands_brought_forward()
    ensures bring { BringGoes }
    ensures read { ReadsOn }
    ensures test { TestsOn }
{
    keeps_entries_apart();
    coherent_pages();
    reads_go();
    forwards_go();
}

/// A changed page that is written, whatever the reply, where the own log has all its changes.
pub fn writes_go()
    ensures { WriteGoes }
{
    writes_are_moves();
    refusals_stay();
}

/// A page lock that is granted, one that is given up, and the append of the log buffer; and all else that leaves the page in hand.
pub fn owners_go()
    ensures lock { LockGoes }
    ensures give_up { GiveUpGoes }
    ensures append { AppendGoes }
    ensures stay { StayGoes }
{
    pages_have_numbers();
    owners_are_moves();
    losses_are_moves();
}

/// A number that is drawn for a compensation, which changes the page in hand.
pub fn undoes_go()
    ensures { UndoGoes }
{
    draws_are_moves();
}

/// Any event of a restart that has read its log, but for its end, whatever was wanted, whatever the answer, and whatever local moves the policy
/// has made of it, leads to a good world that stands beside what is left, with its restart still in hand. The member has the page locks that it
/// had and has not given up, and the one that it was granted.
pub fn events_go()
    ensures { EventsGo }
{
    pages_have_numbers();
    frames_are_moves();
    keeps_entries_apart();
    coherent_pages();
    commands_leave();
    locals_go();
    reads_go();
    hands_brought_forward();
    writes_go();
    owners_go();
    undoes_go();
}

/// The end of a restart whose member has no page lock left leads to a good world in which it is up, and has no copy of a page.
pub fn ends_go()
    ensures { EndGoes }
{
    restarts_go();
}

/// Where an event of one member leaves what the group holds of all others, the restart of each of them that is in hand still is.
pub fn others_still_restart()
    ensures { OthersRestart }
{}

/// So is its own, where the event leaves what the group holds of that member, but for what it casts out.
pub fn own_still_restarts()
    ensures { OwnRestarts }
{}

/// While a restart reads its log, from its begin on, its events leave the pages and their locks, but that they may drop a registration. Where the
/// log is whole, the restart goes on as one that has read it.
pub fn readings_go()
    ensures begin { ReadingBegins }
    ensures event { ReadingGoes }
    ensures owns { ReadingOwns }
{
    pages_have_numbers();
    frames_are_moves();
    keeps_entries_apart();
    coherent_pages();
    commands_leave();
    locals_go();
    owners_go();
}
