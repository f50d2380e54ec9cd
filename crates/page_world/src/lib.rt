//! The pages of the group beside their pure machine: what the cache structure, the disk, the logs, the frames of the members
//! and their page locks are in a world of pages, and which moves their events are.
//!
//! The crate has definitions and proofs alone. Its functions do nothing: their contracts are the theorems.
#![tactic(auto)]

ghost use Rattle.page_world.specs.Numbers.{AreNumbered};
ghost use Rattle.page_world.specs.Cache.{FindsMoves, RegistersMoves, WritesMoves};
ghost use Rattle.page_world.specs.Castouts.{BeginsMoves, CastsMoves, EndsMoves};
ghost use Rattle.page_world.specs.Draws.{DrawsMoves, UndoesMoves};
ghost use Rattle.page_world.specs.Failing.{FailsMoves, RestartsMoves, OpensMoves};
ghost use Rattle.page_world.specs.Groups.{FallsMoves, FallsAgain, ForwardsMoves, AppendsMoves, CompensatesMoves, RisesMoves, StartsTied};
ghost use Rattle.page_world.specs.Losses.{StaysTied, LosesMoves, ReadsLogMoves, RebuildsMoves, RebuiltMoves};
ghost use Rattle.page_world.specs.Newest.{ValidIsNewest, CleanIsOnDisk};
ghost use Rattle.page_world.specs.Owners.{LocksMoves, UnlocksMoves, PurgesMoves, ForcesMoves};
ghost use Rattle.page_world.specs.Frames.{PlacesStays, FillsMoves, RedoesMoves, LeavesMoves, AsideMoves, UnregistersMoves, TestsTell};
ghost use Rattle.page_world.specs.Refusals.{ReadRefused, WriteRefused};

use page_protocol::logs_have_prefixes;

/// Each page has a number, and each number is a page's.
pub fn pages_have_numbers()
    ensures { AreNumbered }
{}

/// A read that registers a frame is one move of its page, behind the one that reclaims an entry where that is needed.
pub fn reads_are_moves()
    ensures found { FindsMoves }
    ensures empty { RegistersMoves }
{}

/// A write of a changed page whose changes are stable is one move of it, behind the one that reclaims an entry where that is
/// needed: all other copies of the page lose their registrations.
pub fn writes_are_moves()
    ensures { WritesMoves }
{}

/// A page that is placed in a free frame is no move; one that fills its frame from disk, one that a restart brings to its last
/// version, one that leaves its frame, with or without the registration, and a changed one that a restart puts aside, are one
/// move each.
pub fn frames_are_moves()
    ensures places { PlacesStays }
    ensures fills { FillsMoves }
    ensures redoes { RedoesMoves }
    ensures leaves { LeavesMoves }
    ensures aside { AsideMoves }
    ensures unregisters { UnregistersMoves }
{}

/// A test of a frame that its member counts on tells the bit of the page in it.
pub fn tests_tell()
    ensures { TestsTell }
{}

/// The begin of a castout, its write to disk under the castout lock, and its end are one move each.
pub fn castouts_are_moves()
    ensures begins { BeginsMoves }
    ensures casts { CastsMoves }
    ensures ends { EndsMoves }
{}

/// The loss of the cache structure, each step of its rebuild and the end of that are one move each, and what the world of pages
/// doesn't see is none.
pub fn losses_are_moves()
    ensures stays { StaysTied }
    ensures loses { LosesMoves }
    ensures reads_log { ReadsLogMoves }
    ensures rebuilds { RebuildsMoves }
    ensures rebuilt { RebuiltMoves }
{}

/// A page lock that is given, and one that a member gives up that is up or restarts, are one move each, and so is a force of a
/// log.
pub fn owners_are_moves()
    ensures locks { LocksMoves }
    ensures unlocks { UnlocksMoves }
    ensures purges { PurgesMoves }
    ensures forces { ForcesMoves }
{}

/// The failure of a member is one move, which cuts of each page what its log hadn't on disk; and so are its restart and the
/// end of that.
pub fn failures_are_moves()
    ensures fails { FailsMoves }
    ensures restarts { RestartsMoves }
    ensures opens { OpensMoves }
{
    logs_have_prefixes();
}

/// A number that a member draws for a record is one move, behind which each page that the record changes has one version more,
/// in the frame of that member.
pub fn draws_are_moves()
    ensures draws { DrawsMoves }
    ensures undoes { UndoesMoves }
{}

/// The failure of the whole group, also inside its restart, is one move, which cuts of each page what no log had on disk; and so
/// are a page that the restart brings forward, and a record that it appends.
pub fn group_failures_are_moves()
    ensures falls { FallsMoves }
    ensures falls_again { FallsAgain }
    ensures forwards { ForwardsMoves }
    ensures appends { AppendsMoves }
    ensures compensates { CompensatesMoves }
{
    logs_have_prefixes();
}

/// A group that begins behind its restart is one move further, and one over empty disks stands beside the start of the world.
pub fn groups_begin()
    ensures rises { RisesMoves }
    ensures starts { StartsTied }
{}

/// A read and a write that are refused, since the cache structure is full or lost, leave the facility as it was.
pub fn refusals_stay()
    ensures read { ReadRefused }
    ensures write { WriteRefused }
{}

/// A copy that isn't changed, in a frame that a test finds valid, has the bytes of the group's copy; and what isn't changed in
/// the cache structure is on disk.
pub fn copies_are_newest()
    ensures valid { ValidIsNewest }
    ensures clean { CleanIsOnDisk }
{}
