//! The pages of a group as a pure machine: for each page its chain of changes over all logs, the disk's, the cache
//! structure's and the frames' versions, registrations, ownership by page locks and by whole page sets, castout, loss and
//! rebuild of the cache, failure and restart of members and of the whole group. What is proved of it holds for every list
//! of moves, and so for every schedule of members that make no other moves.
//!
//! The crate has definitions and proofs alone. Its functions do nothing: their contracts are the theorems.
#![tactic(auto)]

ghost use Rattle.page_protocol.specs.Always.{StartsGood, KeepsGood, AlwaysGood};
ghost use Rattle.page_protocol.specs.Opening.{OpensGood};
ghost use Rattle.page_protocol.specs.Words.{AfterGroupRestart, AfterRebuild, CoherentGives, FallenGives, NeverGoesBack, NoEarlierCopy, FailureIsPossible, RebuildIsPossible, GroupFailureIsPossible};
ghost use Rattle.page_protocol.specs.Rows.{ReadsLastValue, KeepsClaimed};
ghost use Rattle.page_protocol.specs.Sets.{AlwaysAgree};
ghost use Rattle.page_protocol.specs.Frames.{TestTells, Places, TakesOut, Registers, Unregisters, FindsClear, Drops, Empties};
ghost use Rattle.page_protocol.specs.Links.{AlwaysLinked, LinksLead};
ghost use Rattle.page_protocol.specs.Bytes.{RestartReachesLast, RebuildReachesRead, GroupRestartReachesLast};
ghost use Rattle.page_protocol.specs.Needed.{InvalidationIsNeeded, StableIsNeeded, RestingIsNeeded, AsideIsStable, WrittenIsNeeded, BitIsNeeded, CastoutLockIsNeeded, AllLogsAreNeeded, CacheIsNeeded, ComparisonIsNeeded, OrderIsNeeded, UnusedIsNeeded, RecoveryIsNeeded};
ghost use Rattle.page_protocol.specs.Redo.{OwnLogSuffices, MergedLogsSuffice, RedoneOnce};

/// The start over empty disks is coherent, the opening over any sound disk is ready for group restart, each move keeps
/// what is, and so does every list of moves.
pub fn coherent_pages()
    ensures start { StartsGood }
    ensures opening { OpensGood }
    ensures step { KeepsGood }
    ensures run { AlwaysGood }
{}

/// What coherence gives of each page, what no list of moves takes back, and what a rebuild of the cache and a restart of the
/// group leave.
pub fn newest_copies()
    ensures gives { CoherentGives }
    ensures fallen { FallenGives }
    ensures never_back { NeverGoesBack }
    ensures no_earlier_copy { NoEarlierCopy }
    ensures rebuild { AfterRebuild }
    ensures group_restart { AfterGroupRestart }
{}

/// What stands in the logs is a prefix of each page's chain, so that a failure, a rebuild and a group failure are always
/// possible, and a rebuild by what was read beside running members leads to a version that is no earlier than any shared one.
pub fn logs_have_prefixes()
    ensures failure { FailureIsPossible }
    ensures rebuild { RebuildIsPossible }
    ensures group_failure { GroupFailureIsPossible }
{}

/// Redo with comparison of numbers: the owner's log alone leads from the group's copy to the last version, the merged
/// logs do so from any version that a checkpoint doesn't lie beyond, and a second redo changes nothing.
pub fn redo_laws()
    ensures own_log { OwnLogSuffices }
    ensures merged_logs { MergedLogsSuffice }
    ensures once { RedoneOnce }
{}

/// Guards without which pages don't stay coherent: a write invalidates all other frames, a page is written only when its
/// log records are stable, a changed page is put aside only by a member that restarts, and only when its log records are
/// stable, it is given up only when it was written, it is changed only where the bit is set, a castout's disk write is done
/// under its lock, a rebuild merges all logs, a sole user writes to disk only while the cache is there, redo compares
/// numbers, a page is written after the pages that it points to, a page set is taken whole only where nobody has frames of
/// it, and a member opens only when its forward recovery has ended.
pub fn guards_are_needed()
    ensures invalidation { InvalidationIsNeeded }
    ensures stable { StableIsNeeded }
    ensures resting { RestingIsNeeded }
    ensures aside { AsideIsStable }
    ensures written { WrittenIsNeeded }
    ensures bit { BitIsNeeded }
    ensures castout_lock { CastoutLockIsNeeded }
    ensures all_logs { AllLogsAreNeeded }
    ensures cache { CacheIsNeeded }
    ensures comparison { ComparisonIsNeeded }
    ensures order { OrderIsNeeded }
    ensures unused { UnusedIsNeeded }
    ensures recovery { RecoveryIsNeeded }
{}

/// Redo in the group: a restarting owner comes from the shared version of its page to the last one by its own log, a
/// rebuild comes from the disk's version to what it has read of all logs, and group restart to the last version.
pub fn redo_reaches()
    ensures restart { RestartReachesLast }
    ensures rebuild { RebuildReachesRead }
    ensures group_restart { GroupRestartReachesLast }
{}

/// Pointers between pages: where pages are written in the order of their pointers, a shared pointer leads to a shared
/// page through every list of moves, and a pointer in a frame that a member may use leads to what it was made for.
pub fn pointers_lead()
    ensures run { AlwaysLinked }
    ensures lead { LinksLead }
{}

/// Frames and registrations by index: a test of a frame that its member has registered for the page that it has tells
/// the page's bit, and what is done to frames and registrations does to the bits by page exactly what the moves of pages
/// say. A frame may stay registered for a page that has left it.
pub fn bits_by_frame()
    ensures test { TestTells }
    ensures places { Places }
    ensures takes_out { TakesOut }
    ensures registers { Registers }
    ensures unregisters { Unregisters }
    ensures finds_clear { FindsClear }
    ensures drops { Drops }
    ensures empties { Empties }
{}

/// A sole user has each page of its page set, through every list of moves.
pub fn whole_sets()
    ensures { AlwaysAgree }
{}

/// Rows in pages: a transaction that claims a row finds its last value in any frame that its member may use, where each
/// change that isn't shared is of a transaction that claims its row; and what keeps that so.
pub fn rows_in_pages()
    ensures reads { ReadsLastValue }
    ensures claimed { KeepsClaimed }
{}
