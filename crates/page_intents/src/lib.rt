//! The page intents of a member that is up, as moves in the world of pages: an intent that is lawful, whose command the facility has
//! executed or whose disk call was done, and whose answer is settled, leads to a world that stands beside what is left.
//!
//! The crate has definitions and proofs alone. Its functions do nothing: their contracts are the theorems.
#![tactic(auto)]

ghost use Rattle.page_intents.specs.Castouts.{AnyDoneGoes, AnyReadGoes, AnyWriteGoes, CastDoneGoes, CastReadGoes, CastWriteGoes};
ghost use Rattle.page_intents.specs.Draws.{ChangeGoes, CommitGoes, UndoGoes};
ghost use Rattle.page_intents.specs.Frames.{FillGoes, FreeGoes, ReadGoes, TestGoes, TestTells, WriteGoes};
ghost use Rattle.page_intents.specs.Locals.{LoseGoes, PinGoes, PlaceGoes, StaleGoes, UnpinGoes};
ghost use Rattle.page_intents.specs.Logs.{AppendGoes};
ghost use Rattle.page_intents.specs.Owners.{GrantGoes, ObtainGoes, ReleaseGoes, StayGoes};

use page_world::{
    castouts_are_moves, copies_are_newest, draws_are_moves, frames_are_moves, losses_are_moves,
    owners_are_moves, pages_have_numbers, reads_are_moves, refusals_stay, writes_are_moves,
};

/// A page that is read into a frame, whatever the reply, and one that the disk fills a frame with.
pub fn reads_go()
    ensures read { ReadGoes }
    ensures fill { FillGoes }
{
    pages_have_numbers();
    reads_are_moves();
    refusals_stay();
    frames_are_moves();
}

/// A page whose copy is tested: that is no move, and a copy that is valid and not changed is the group's.
pub fn tests_go()
    ensures test { TestGoes }
    ensures tells { TestTells }
{
    pages_have_numbers();
    copies_are_newest();
}

/// A changed page that is written, whatever the reply, where the log of the member has all its changes.
pub fn writes_go()
    ensures { WriteGoes }
{
    pages_have_numbers();
    writes_are_moves();
    refusals_stay();
}

/// A frame that is made free.
pub fn frees_go()
    ensures { FreeGoes }
{
    pages_have_numbers();
    frames_are_moves();
}

/// The append of a log buffer, behind which all records of the member's log are on disk.
pub fn appends_go()
    ensures { AppendGoes }
{
    owners_are_moves();
}

/// A page that is cast out: it is read under its castout lock, whatever the reply, and written to disk while the member has that lock;
/// and the castout is done where the page was written, or the lock is another's or nobody's by now. So it is of a member that is up, which then
/// still is, and of any other.
pub fn castouts_go()
    ensures read { CastReadGoes }
    ensures write { CastWriteGoes }
    ensures done { CastDoneGoes }
    ensures any_read { AnyReadGoes }
    ensures any_write { AnyWriteGoes }
    ensures any_done { AnyDoneGoes }
{
    pages_have_numbers();
    castouts_are_moves();
}

/// A number that is drawn for a change, for a compensation, and for a commit.
pub fn draws_go()
    ensures change { ChangeGoes }
    ensures undo { UndoGoes }
    ensures commit { CommitGoes }
{
    draws_are_moves();
}

/// A page lock that is granted, at once or behind the answers of others, and one that is given up.
pub fn owners_go()
    ensures obtain { ObtainGoes }
    ensures grant { GrantGoes }
    ensures release { ReleaseGoes }
{
    pages_have_numbers();
    owners_are_moves();
    losses_are_moves();
}

/// An event that leaves the frames, the log and the page claims of the member, and of the facility what pages know of, is no move.
pub fn others_stay()
    ensures { StayGoes }
{
    losses_are_moves();
}

/// Local moves that change frames are no moves: a page that is placed in a free frame, and a frame that is pinned more or less. Nor
/// is it one that a draw finds a copy stale.
pub fn locals_stay()
    ensures place { PlaceGoes }
    ensures pin { PinGoes }
    ensures unpin { UnpinGoes }
    ensures stale { StaleGoes }
{
    pages_have_numbers();
    frames_are_moves();
}

/// The loss of the cache structure on the word of a member, which is no move where it is lost already.
pub fn losses_go()
    ensures { LoseGoes }
{
    losses_are_moves();
}
