//! The locks of the group beside their pure machine: what the facility's lock structure and cells and the claims of the
//! members are in a world of locks, and which moves their events are.
//!
//! The crate has definitions and proofs alone. Its functions do nothing: their contracts are the theorems.
#![tactic(auto)]

ghost use Rattle.lock_world.specs.Numbers.{AreNumbered};
ghost use Rattle.lock_world.specs.Answers.{AnswersClean, AnswersConflict};
ghost use Rattle.lock_world.specs.Books.{AnswersTell, EndLeaves, FacilityTells, FreeAtHome, GivenEnters, HomeTells, NobodyHolds, PageEnters, PageFrees, PostponedHandsOn, ReleaseFrees, RollbackEnds, RollbackFrees, RollbackWaits, SlotHas};
ghost use Rattle.lock_world.specs.Cells.{AsksMoves, RefusesMoves};
ghost use Rattle.lock_world.specs.Claims.{GivesUpMoves, LocalMoves, RestartsMoves};
ghost use Rattle.lock_world.specs.Failing.{BeginsAnew, FailsMoves, StartsTied};
ghost use Rattle.lock_world.specs.Grants.{GrantsMoves, ObtainsMoves};
ghost use Rattle.lock_world.specs.Names.{PurgesMoves, ReleasesMoves};
ghost use Rattle.lock_world.specs.Rollbacks.{PostponesMoves, TakesOverMoves};
ghost use Rattle.lock_world.specs.Standing.{RisesMoves, StaysTied};

use lock_protocol::claims_give;

/// Each name of a lock has a number, and each number is a name's.
pub fn names_have_numbers()
    ensures { AreNumbered }
{}

/// A query to another member, its answer, and a grant that isn't given are one move each.
pub fn queries_are_moves()
    ensures asks { AsksMoves }
    ensures clean { AnswersClean }
    ensures conflict { AnswersConflict }
    ensures refuses { RefusesMoves }
{}

/// A lock that is granted is one move: with no other member in the way, or behind the answers of all that are.
pub fn grants_are_moves()
    ensures obtain { ObtainsMoves }
    ensures grant { GrantsMoves }
{}

/// A claim that the member's own cover, and claims that are given up, are one move each.
pub fn claims_are_moves()
    ensures local { LocalMoves }
    ensures gives_up { GivesUpMoves }
{}

/// A purge of a retained record, and a release of a lock, are a move behind one that gives claims up.
pub fn releases_are_moves()
    ensures purge { PurgesMoves }
    ensures release { ReleasesMoves }
{}

/// A rollback that is postponed is one move. One that a restart leaves open is taken over by moves that demote the claims of
/// the failed transaction to those that the rollback needs.
pub fn rollbacks_are_moves()
    ensures postpone { PostponesMoves }
    ensures take_over { TakesOverMoves }
{}

/// The failure of a member is one move, behind which its recorded claims stand by retained records. So is its restart, and the end of
/// that, which gives up what is left of them.
pub fn failures_are_moves()
    ensures fails { FailsMoves }
    ensures restarts { RestartsMoves }
    ensures rises { RisesMoves }
{
    claims_give();
}

/// A group that begins stands beside the start of the world, also behind a failure of the whole group; and what changes neither
/// locks, claims, queries nor standings is no move.
pub fn groups_begin()
    ensures starts { StartsTied }
    ensures begins_anew { BeginsAnew }
    ensures stays { StaysTied }
{}

/// What a lock manager answers is true of its claims: that nothing is in the way, that the member's own claims cover a
/// need, and that no other owner of the member is in the way of one.
pub fn books_tell()
    ensures answers { AnswersTell }
    ensures home { HomeTells }
    ensures free { FreeAtHome }
    ensures facility { FacilityTells }
    ensures slot { SlotHas }
    ensures nobody { NobodyHolds }
{
    claims_give();
}

/// A claim that is entered in a lock manager is the owner's, and no other changes; what is given up frees the name that is told,
/// and the interest that is kept stands for the claims that are left.
pub fn books_change()
    ensures given { GivenEnters }
    ensures page { PageEnters }
    ensures released { ReleaseFrees }
    ensures page_released { PageFrees }
    ensures ended { EndLeaves }
{}

/// The same of rollbacks: the claims of a slot become those of a rollback, which keeps them while it waits for another member, gives them
/// up one by one, and leaves none.
pub fn rollbacks_change()
    ensures postponed { PostponedHandsOn }
    ensures waits { RollbackWaits }
    ensures released { RollbackFrees }
    ensures ended { RollbackEnds }
{}
