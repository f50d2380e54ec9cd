//! What the failure of a member leaves open in its log: transactions that had locked, as it failed, the rows that they have changed.
//!
//! The crate has definitions and proofs alone. Its functions do nothing: their contracts are the theorems.
#![tactic(auto)]

ghost use Rattle.left_open.specs.Logs.{LeftIsLocked, LockedBegins, LockedReaches, LockedStay};

use log_appends::appends_tell;
use log_rows::open_trans_tell;
use put_records::events_put;
use row_claims::{rows_open, rows_stay};

/// Whatever of the log buffer is on disk then, behind a log of whole records: each transaction that the last records of the log leave open had
/// locked its rows. Records that wait in the buffer are to be allowed, and no Checkpoint among them.
pub fn left_is_locked()
    ensures { LeftIsLocked }
{
    appends_tell();
    open_trans_tell();
    rows_open();
}

/// The rows of its log are locked so for a member that begins over a log which closes all of which it has changed rows; behind local moves; and
/// behind each event whose call of the disk doesn't fail, over a disk that tells what it holds: one that puts records too, and one that appends
/// those that wait.
pub fn logs_stay_locked()
    ensures begin { LockedBegins }
    ensures local { LockedReaches }
    ensures event { LockedStay }
{
    events_put();
    appends_tell();
    rows_stay();
}
