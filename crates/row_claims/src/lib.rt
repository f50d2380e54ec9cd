//! What no event of a member changes: that each row which the records of its log, or of its log buffer, have changed for a transaction is
//! locked by that transaction, as long as the log on disk doesn't close it. So it is where the member fails, whatever of the buffer is on disk
//! then.
//!
//! The crate has definitions and proofs alone. Its functions do nothing: their contracts are the theorems.
#![tactic(auto)]

ghost use Rattle.row_claims.specs.Rows.{RowsBegin, RowsOpen, RowsReach, RowsStay};

use closing_law::{closes_tell, work_closes};
use log_rows::both_tell;
use strict_locking::{locks_stay, slots_stay};

/// So it is of a member that holds nothing, over a log that closes all of which it has changed rows, and no event of it changes that, where
/// the disk tells what it holds; nor do local moves.
pub fn rows_stay()
    ensures begin { RowsBegin }
    ensures event { RowsStay }
    ensures local { RowsReach }
{
    both_tell();
    work_closes();
    closes_tell();
    slots_stay();
    locks_stay();
}

/// What the log on disk, with a front of the buffer behind it, leaves open has locked the rows that it has changed.
pub fn rows_open()
    ensures { RowsOpen }
{
    both_tell();
}
