//! What logs tell of pages, through the events of a group: the records on disk and in the log buffers of its members go on telling of
//! the world of pages.
//!
//! The crate has definitions and proofs alone. Its functions do nothing: their contracts are the theorems.
#![tactic(auto)]

ghost use Rattle.told_pages.specs.Events.{EventTells, ToldTells};
ghost use Rattle.told_pages.specs.Runs.{AppendRuns, DrawRuns, FailRuns, QuietRuns, StartsAllTold};

use log_tells::{buffers_tell, logs_tell};
use needs_law::sends_lawfully;
use page_images::header_laws;
use page_protocol::coherent_pages;
use put_records::{events_put, resting_puts_none};

/// Over empty disks nothing was drawn. A run of moves that are no failures and no moves of a group restart goes on telling: where the
/// counter stays nothing is drawn in it, where it rises by one the record of that number is drawn, and an append brings what the log
/// buffer had. A failure of a member leaves what its log has on disk.
pub fn runs_tell()
    ensures start { StartsAllTold }
    ensures quiet { QuietRuns }
    ensures draws { DrawRuns }
    ensures appends { AppendRuns }
    ensures fails { FailRuns }
{
    coherent_pages();
    logs_tell();
    buffers_tell();
}

/// Any event of a member that is up goes on telling, in the bytes of the disk and of its log buffer: it puts the record of the number
/// that it has drawn in its log buffer, appends that, or leaves it. So does what it is told of its restart or its rebuild. All other
/// logs and log buffers stay.
pub fn events_tell()
    ensures event { EventTells }
    ensures told { ToldTells }
{
    sends_lawfully();
    header_laws();
    coherent_pages();
    logs_tell();
    events_put();
    resting_puts_none();
    runs_tell();
}
