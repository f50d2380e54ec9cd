//! What no event of a member changes: that a transaction which is over is closed in the member's log on disk, by its Commit record or by its
//! Ended record.
//!
//! The crate has definitions and proofs alone. Its functions do nothing: their contracts are the theorems.
#![tactic(auto)]

ghost use Rattle.closing_law.specs.Closing.{ClosesBegin, ClosesReach, ClosesStay, ClosesTell};

use log_rows::both_tell;
use needs_law::sends_lawfully;

/// So it is of a member that holds nothing, over any log, and no event of it changes that, where the disk tells what it holds and the
/// numbers that are drawn are above those of the records on disk; nor do local moves.
pub fn work_closes()
    ensures begin { ClosesBegin }
    ensures event { ClosesStay }
    ensures local { ClosesReach }
{
    both_tell();
    sends_lawfully();
}

/// Then an owner whose transaction is over, and has changed a row, has its Commit or its Ended record on disk.
pub fn closes_tell()
    ensures { ClosesTell }
{}
