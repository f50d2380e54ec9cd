//! Where the records begin that a reader has kept of a log: at the log's first byte, or at a Checkpoint that names its own place.
//!
//! The crate has definitions and proofs alone. Its functions do nothing: their contracts are the theorems.
#![tactic(auto)]

ghost use Rattle.log_starts.specs.Starts.{
  AsksWithin,
  GrownBegins,
  GrownBeginsIn,
  NothingBegins,
  RepliesBegin,
};

use log_checkpoint::search_laws;
use log_head::whole_laws;
use log_record::reading_laws;

/// So it is where nothing is kept yet, and of what is made of it by more bytes.
pub fn starts_stay()
    ensures nothing { NothingBegins }
    ensures grown { GrownBegins }
{
    reading_laws();
    whole_laws();
}

/// And so it is of a reader that looks for the last Checkpoint first, whatever the log replies: the bytes of the log begin so
/// where what it keeps of them begins, even while it keeps nothing. What it asks for begins in the log, or at its end.
pub fn replies_begin()
    ensures grown { GrownBeginsIn }
    ensures replies { RepliesBegin }
    ensures within { AsksWithin }
{
    reading_laws();
    whole_laws();
    search_laws();
}
