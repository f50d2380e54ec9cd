//! What no event of a member's restart changes: that a transaction which is over has its Ended record in the member's log on disk, and that
//! the log leaves nothing open but transactions of the restart. So what the restart hands over is all that the log leaves open, and wherever
//! the restart stops, the log leaves no more open than what it hasn't ended.
//!
//! The crate has definitions and proofs alone. Its functions do nothing: their contracts are the theorems.
#![tactic(auto)]

ghost use Rattle.restart_closing.specs.Closing.{ClosesBegin, ClosesStay};
ghost use Rattle.restart_closing.specs.Leaving.{FailuresLeave, HandsAll, LogsLeaveBelow, LogsLeaveFew, NoneIsLeft, OverAreClosed, RestsOpen, StopsOpen};
ghost use Rattle.restart_closing.specs.Resting.{HandsOver, RestsStay};

use log_appends::{appends_tell, rests_tell};
use log_opens::opens_are_allowed;
use log_rows::{both_tell, open_trans_tell};

/// So it is where a restart begins, over a log that leaves the same open wherever reading of it may begin; and behind each event of it whose
/// call of the disk doesn't fail, over a disk that tells what it holds, where all of the log is read.
pub fn restarts_close()
    ensures begin { ClosesBegin }
    ensures event { ClosesStay }
{
    appends_tell();
    rests_tell();
    both_tell();
    open_trans_tell();
    opens_are_allowed();
}

/// Then a transaction that is over is closed in the log; where no record waits in the log buffer, each that has changed a row is closed or
/// handed over; and whatever of the buffer is on disk where the restart stops, what the log leaves open isn't over. Where no transaction is
/// counted as left, each is over, if the log has fewer than 2^64 bytes.
pub fn closings_tell()
    ensures over { OverAreClosed }
    ensures handed { HandsAll }
    ensures stops { StopsOpen }
    ensures rests { RestsOpen }
    ensures left { NoneIsLeft }
    ensures few { LogsLeaveFew }
    ensures below { LogsLeaveBelow }
{
    appends_tell();
    rests_tell();
    both_tell();
    open_trans_tell();
    opens_are_allowed();
}

/// Behind an event whose call of the disk has failed the log has the bytes that it had, or its whole records and any front of those that
/// wait.
pub fn failures_leave()
    ensures { FailuresLeave }
{}

/// What it hands over is all that the log leaves open; and then, behind each event of it whose call of the disk doesn't fail, no record is put,
/// and the log has its whole records still.
pub fn restarts_rest()
    ensures handed { HandsOver }
    ensures event { RestsStay }
{
    both_tell();
    closings_tell();
}
