//! The rows of a group as a pure machine: transactions under claims, their records in the logs of members, commits by
//! the append that makes the record stable, failures that lose the unwritten end of a log, and undo. What is proved of
//! it holds for every list of moves, and so for every schedule of members that make no other moves.
//!
//! The crate has definitions and proofs alone. Its functions do nothing: their contracts are the theorems.
#![tactic(auto)]

ghost use Rattle.row_protocol.specs.Claims.{LocksGiveAlone};
ghost use Rattle.row_protocol.specs.Legal.{AlwaysLegal, KeepsLegal, StartsLegal};
ghost use Rattle.row_protocol.specs.Ordered.{AlwaysOrdered, KeepsOrdered, LogsByLrsn, OneIsOpen, StartsOrdered, UndoSetsBack};
ghost use Rattle.row_protocol.specs.Opening.{AlwaysFromOpening, OpensLegal};
ghost use Rattle.row_protocol.specs.Needed.{AllLogsAreNeeded, CommitRecordIsNeeded, StableBeforeReleaseIsNeeded, UndoBeforeReleaseIsNeeded, UndoBeforeReopenIsNeeded, UndoOnDiskIsNeeded};
ghost use Rattle.row_protocol.specs.Example.{RunsThrough};
ghost use Rattle.row_protocol.specs.Given.{AppendsStand, CommitsStay, HistoryGrows, HistoryIsLegal, LogsAreReplay, UndoneFirst};

/// In every state that moves lead to from the start the history is legal and the rows of the logs are its replay.
pub fn legal_history()
    ensures { AlwaysLegal }
{}

/// The start is legal, and each move keeps what is.
pub fn keeps_legal()
    ensures start { StartsLegal }
    ensures step { KeepsLegal }
{}

/// A run may open with changes that earlier runs left open on a sound disk: group restart undoes them before anyone
/// begins, and all that is said of runs from the start holds of runs from there.
pub fn opens_on_sound_disk()
    ensures opens { OpensLegal }
    ensures always { AlwaysFromOpening }
{}

/// What the layers above get. In every state that moves lead to from the start the history is legal, and the rows of
/// the logs are its replay; so they are at each moment inside an append, with the commits that are on disk by then. A
/// commit is never taken back, and the history only grows. A row that a transaction has changed is read and changed by
/// no other before that transaction has committed or its changes are undone for good.
pub fn gives()
    ensures history { HistoryIsLegal }
    ensures logs { LogsAreReplay }
    ensures appends { AppendsStand }
    ensures commits { CommitsStay }
    ensures grows { HistoryGrows }
    ensures undone_first { UndoneFirst }
{}

/// Six guards without which a read, a row or the rows of the logs come to be wrong: a refused transaction's changes are
/// undone before its claims go, and on disk; a committing one's claims go after its commit record is on disk; the logs
/// stand for transactions with a commit record alone, and only all logs together do; and after a group failure all
/// that is open is undone before anyone begins.
pub fn guards_are_needed()
    ensures undo_before_release { UndoBeforeReleaseIsNeeded }
    ensures stable_before_release { StableBeforeReleaseIsNeeded }
    ensures commit_record { CommitRecordIsNeeded }
    ensures undo_before_reopen { UndoBeforeReopenIsNeeded }
    ensures undo_on_disk { UndoOnDiskIsNeeded }
    ensures all_logs { AllLogsAreNeeded }
{}

/// In every state that moves lead to from the start each row's records stand in order: below a change stand older ones
/// alone, of its own transaction or of transactions that are done, those that have committed with an older commit
/// record; and each change's value before it is what the row was at its LRSN. So at most one transaction has changes of
/// a row that may still be undone, an undo finds the row as its change left it and leaves it as the change found it,
/// and the rows of the logs are told by LRSNs alone, in whatever order the logs are read.
pub fn ordered_records()
    ensures start { StartsOrdered }
    ensures step { KeepsOrdered }
    ensures always { AlwaysOrdered }
    ensures one_is_open { OneIsOpen }
    ensures sets_back { UndoSetsBack }
    ensures by_lrsn { LogsByLrsn }
{}

/// Where no two transactions have conflicting locks of a row or of a table space, a row that one of them may change by
/// its locks is no other's.
pub fn alone_by_locks()
    ensures { LocksGiveAlone }
{}

/// The moves lead somewhere: a run in which a failed member's open change is undone by its restart, and another
/// transaction then changes the row and commits for good.
pub fn runs_through()
    ensures { RunsThrough }
{}
