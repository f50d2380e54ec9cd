//! What no event of a member's restart changes: that the transactions which it has left open are those of the log that it has read, with no
//! rows but those that records of theirs have changed, and that the names of these rows and of their table spaces are needed. So it frees no
//! retained record of such a name.
//!
//! The crate has definitions and proofs alone. Its functions do nothing: their contracts are the theorems.
#![tactic(auto)]

ghost use Rattle.restart_law.specs.Few.{NeedsAreCounted, ShortLogsNeedFew};
ghost use Rattle.restart_law.specs.Opens.{
  ListsGo,
  OpensBegin,
  OpensHand,
  OpensStay,
  OpensTell,
  OpensTouch,
  PurgesSpare,
  PurgesSpareLeft,
};
ghost use Rattle.restart_law.specs.Reads.{NothingKnown, ReadsBegin, ReadsStay, WholeIsRead, WholeKnown};

use checkpoint_reader::reader_laws;
use log_rows::{both_tell, open_trans_tell};
use log_starts::replies_begin;

/// So it is of a restart that begins, and no event of it changes that, nor does what its member takes over from it.
pub fn opens_stay()
    ensures begin { OpensBegin }
    ensures event { OpensStay }
    ensures handed { OpensHand }
{
    open_trans_tell();
}

/// What it has left open, as it hands it over, are transactions that the log which it has read doesn't close, with the rows that the log's
/// records have changed for them; and it frees the record of no name that one of these needs.
pub fn opens_tell()
    ensures tell { OpensTell }
    ensures touch { OpensTouch }
    ensures spare { PurgesSpare }
    ensures left { PurgesSpareLeft }
{
    both_tell();
}

/// Over a disk that tells what it holds, what a restart has read are the last records of its member's log on disk as it was before the
/// restart changed it, behind whole records: all of it, or what follows a Checkpoint that names its own place. Up to the end that the
/// restart was given, the log is to be whole records: nothing is, and so is a log that was whole records, whatever was appended to it since.
pub fn reads_true()
    ensures nothing { NothingKnown }
    ensures whole { WholeKnown }
    ensures begin { ReadsBegin }
    ensures event { ReadsStay }
{
    reader_laws();
    replies_begin();
    open_trans_tell();
}

/// And in the event in which it is read, the restart knows up to which byte the whole records of the log go, and how many bytes follow them.
pub fn whole_is_read()
    ensures { WholeIsRead }
{
    reader_laws();
    replies_begin();
}

/// Once the log is read, the restart's transactions stay the same, and one that is over stays so; where it is read, they are those that it
/// leaves open.
pub fn lists_go()
    ensures { ListsGo }
{
    open_trans_tell();
}

/// The names that a restart may free are needed of what a log leaves open no more often than the log has records: so of a log of fewer than 2^64
/// bytes these can be counted with 64 bits.
pub fn needs_are_few()
    ensures counted { NeedsAreCounted }
    ensures short { ShortLogsNeedFew }
{}
