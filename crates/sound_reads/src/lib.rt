//! What a group restart reads of the logs of a sound disk: of each all of it, or its last records from a Checkpoint on.
//!
//! The crate has definitions and proofs alone. Its functions do nothing: their contracts are the laws.
#![tactic(auto)]

ghost use Rattle.sound_reads.specs.Laws.{AddedAsks, FindsNoDamage, GrownIsKept, HaveGreatest, LastIsRead, LengthIsKept, NothingIsKept, PlanReadSuits, ReadAsks, ReadsBring, ReadsStandApart};

/// Where each log of a sound disk is read whole, or from a Checkpoint on that names its own place, as all behind it do, and behind
/// which no record belongs to an earlier transaction, what was read are records of transactions that fit each other; no number
/// and no offset of it is one that can't stand there; and its greatest number is that of the logs.
pub fn read_laws()
    ensures apart { ReadsStandApart }
    ensures damage { FindsNoDamage }
    ensures greatest { HaveGreatest }
{
    sound_disk::transaction_laws();
}

/// What was left out so is in the pages of the disk: the merged records of what was read bring each of them forward to its last
/// version, so that the plan of it suits the disk.
pub fn suit_laws()
    ensures brings { ReadsBring }
    ensures suits { PlanReadSuits }
{
    log_record::reading_laws();
    log_head::whole_laws();
    log_merge::merging_laws();
    page_redo::forward_laws();
    read_laws();
    sound_restarts::redo_laws();
}

/// The reader of a log keeps all of it, or what stands from such a Checkpoint on; so in the end it has read a log of a sound disk so.
/// By what it has noted of the log besides, a restart looks for pages of version 1 exactly where one of the logs asks for it.
pub fn kept_laws()
    ensures nothing { NothingIsKept }
    ensures length { LengthIsKept }
    ensures grown { GrownIsKept }
    ensures last { LastIsRead }
    ensures asks { ReadAsks }
    ensures added { AddedAsks }
{
    log_record::reading_laws();
    log_head::whole_laws();
    log_reader::reader_laws();
    sound_disk::log_laws();
}
