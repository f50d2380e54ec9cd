//! When a disk is sound: seven clauses on its logs and its pages. A run may open over a sound disk, and leaves one.
//!
//! The crate has definitions and proofs alone. Its functions do nothing: their contracts are the laws.
#![tactic(auto)]

ghost use Rattle.std.specs.Prelude.{[]};
ghost use Rattle.std.specs.FinMap as map;
ghost use Rattle.ds_disk.specs.Memory.{nothing};
ghost use Rattle.sound_disk.specs.Examples.{disk_of, closed_log, falling_log, twice_committed, lost_start, lost_row, two_writers, last_number_used, stray_page};
ghost use Rattle.sound_disk.specs.Laws.{AppendKeeps, AreMerged, AreRead, AreTold, HaveNoDamage, IndexOpens, LogsStand, RedoReaches, TornKeeps};
ghost use Rattle.sound_disk.specs.Sound.{IsSoundDisk};

/// What is read of the logs of a sound disk is their whole records and their tails, so there is one list of logs. A record that
/// is appended with no lower number than the last one leaves a log whole; an append that was cut short leaves the records that
/// were there.
pub fn log_laws()
    ensures read { AreRead }
    ensures told { AreTold }
    ensures append { AppendKeeps }
    ensures torn { TornKeeps }
{
    log_record::log_laws();
}

/// No number in the logs of a sound disk is one that can't stand there: a restart of the group finds no damage in them.
pub fn transaction_laws()
    ensures { HaveNoDamage }
{}

/// The merged records of a sound disk may stand in logs, and the numbers of those that change pages rise; redo leads from each
/// of its pages to the last one. Its logs stand for rows. Its indexes are such as the machine of the index opens with.
pub fn page_laws()
    ensures merged { AreMerged }
    ensures redo { RedoReaches }
    ensures rows { LogsStand }
    ensures index { IndexOpens }
{
    restart_plan::merging_laws();
    page_redo::redo_laws();
    index_protocol::opens_on_sound_disk();
}

/// A disk on which nothing was written is sound, and so is one with a log that has a commit and that a restart of the group
/// has closed.
pub fn sound_examples()
    ensures empty { IsSoundDisk nothing }
    ensures closed { IsSoundDisk (disk_of map.empty closed_log) }
{
    page_images::header_laws();
}

/// Disks that aren't sound, one for each clause: a number falls; a transaction commits twice; a page has bytes of which no
/// record speaks; a row is changed where no page is; two open transactions change one row; no number is left for a compensation;
/// a checkpoint leads into a record.
pub fn unsound_examples()
    ensures falling { IsSoundDisk (disk_of map.empty falling_log) → ⊥ }
    ensures twice { IsSoundDisk (disk_of map.empty twice_committed) → ⊥ }
    ensures stray { IsSoundDisk (disk_of stray_page []) → ⊥ }
    ensures lost_row { IsSoundDisk (disk_of map.empty lost_row) → ⊥ }
    ensures two_writers { IsSoundDisk (disk_of map.empty two_writers) → ⊥ }
    ensures last_number { IsSoundDisk (disk_of map.empty last_number_used) → ⊥ }
    ensures lost_start { IsSoundDisk (disk_of map.empty lost_start) → ⊥ }
{
    log_record::log_laws();
    page_images::header_laws();
}
