//! What a group restart appends to the logs of a disk, and that sound logs stay sound with it.
//!
//! The crate has definitions and proofs alone. Its functions do nothing: their contracts are the laws.
#![tactic(auto)]

ghost use Rattle.sound_appends.specs.Example.{RollsBack};
ghost use Rattle.sound_appends.specs.Laws.{AppendStops, CutKeepsWhole, KeepsAll, KeepsCheckpoints, KeepsNumbers, KeepsTransactions, KeepsTurns, KeepsVersions, KeepsWhole, SameRecordsKeep, StandsBehind, TornKeepsWhole};

/// Each log is whole records still, whose numbers never fall, with a record that a restart appends, whole or cut short, and where
/// its tail is cut off.
pub fn whole_laws()
    ensures append { KeepsWhole }
    ensures torn { TornKeepsWhole }
    ensures cut { CutKeepsWhole }
{
    sound_disk::log_laws();
}

/// A record that a restart appends stands behind all merged records, so that rows are still changed under one transaction at a
/// time.
pub fn turn_laws()
    ensures behind { StandsBehind }
    ensures turns { KeepsTurns }
{}

/// The records of transactions still fit each other, and numbers are still left for the compensations that are wanted.
pub fn transaction_laws()
    ensures transactions { KeepsTransactions }
    ensures numbers { KeepsNumbers }
{}

/// All records that are appended, one after the other, keep these three clauses of a sound disk, and tails of logs don't matter
/// to them.
pub fn append_laws()
    ensures all { KeepsAll }
    ensures same { SameRecordsKeep }
{
    turn_laws();
    transaction_laws();
}

/// Where a stop cut an append of such records short, for one of the logs, what is left are sound logs again.
pub fn stop_laws()
    ensures { AppendStops }
{
    whole_laws();
    turn_laws();
    transaction_laws();
    append_laws();
}

/// Checkpoints still name places of records before which nothing needs to be read again, where that holds before a Checkpoint
/// that is appended; and the pages of the disk are still versions, where none of version 1 is left before a RestartEnd.
pub fn page_laws()
    ensures checkpoints { KeepsCheckpoints }
    ensures versions { KeepsVersions }
{
    turn_laws();
}

/// An open row change is taken back, its transaction ends, and its log gets a Checkpoint and a RestartEnd.
pub fn rollback_example()
    ensures { RollsBack }
{}
