//! What the restart of a member does to locks, as moves in the world of locks: the page lock that it asks for and gives up, the retained
//! records that it frees, and its end.
//!
//! The crate has definitions and proofs alone. Its functions do nothing: their contracts are the theorems.
#![tactic(auto)]

ghost use Rattle.lock_restarts.specs.Changes.{ChangesGo};
ghost use Rattle.lock_restarts.specs.Courses.{RestartsFollow, StandingsFollow};
ghost use Rattle.lock_restarts.specs.Events.{EventsGo, StillsStay};
ghost use Rattle.lock_restarts.specs.Intents.{AskGoes, GrantGoes, ObtainGoes, PurgeGoes, ReleaseGoes, UpGoes};
ghost use Rattle.lock_restarts.specs.Sent.{SendsLawfully};
ghost use Rattle.lock_restarts.specs.Stands.{LocalsStay};

use lock_world::{
    failures_are_moves, grants_are_moves, groups_begin, names_have_numbers, queries_are_moves,
    releases_are_moves,
};

/// The lock of the page whose change is to be taken back, as it is asked for, whatever the reply, and a query to another member about it.
pub fn locks_asked_for_go()
    ensures obtain { ObtainGoes }
    ensures grant { GrantGoes }
    ensures ask { AskGoes }
{
    grants_are_moves();
    queries_are_moves();
    groups_begin();
}

/// The page's lock as it is given up, a retained record that is freed, and the end of the restart.
pub fn locks_left_go()
    ensures release { ReleaseGoes }
    ensures purge { PurgeGoes }
    ensures up { UpGoes }
{
    names_have_numbers();
    groups_begin();
    releases_are_moves();
    failures_are_moves();
}

/// What a lawful intent sends: of those that change locks exactly that, with what their tests show, and of all others no command that does.
pub fn sends_lawfully()
    ensures { SendsLawfully }
{}

/// The local moves of a restart neither claim a page nor give one up.
pub fn local_moves_stay()
    ensures { LocalsStay }
{}

/// An event of the restart that changes locks, asks another member or ends the restart: whatever was wanted, whatever the reply, and whatever
/// local moves the policy has made of it.
pub fn changes_go()
    ensures { ChangesGo }
{
    names_have_numbers();
    sends_lawfully();
    local_moves_stay();
    locks_asked_for_go();
    locks_left_go();
}

/// An event of the restart that changes no locks, asks nobody and sets no standing is no move.
pub fn stills_stay()
    ensures { StillsStay }
{
    groups_begin();
    sends_lawfully();
    local_moves_stay();
}

/// Any event of the restart leads to a world that stands beside what is left, where the retained record that it frees, if it frees one, is of
/// a name that no rollback of the member claims.
pub fn restarts_go()
    ensures { EventsGo }
{
    groups_begin();
    sends_lawfully();
    local_moves_stay();
    stills_stay();
    changes_go();
}

/// How far the restart is, behind any event of it: once its log is read, nothing reads on; only behind that retained locks are listed, and
/// a lock is asked for that another member may keep; and one that has handed over what it has left open asks for none. Only its end sets a
/// standing, which is the member's.
pub fn restarts_follow()
    ensures follows { RestartsFollow }
    ensures standings { StandingsFollow }
{
    sends_lawfully();
    local_moves_stay();
}
