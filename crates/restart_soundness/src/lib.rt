//! A group restart over a sound disk leaves a sound disk, also where it is stopped inside any of its calls.
//!
//! The crate has definitions and proofs alone. Its function does nothing: its contract is the law.
#![tactic(auto)]

ghost use Rattle.restart_soundness.specs.Closing.{RestsClose};
ghost use Rattle.restart_soundness.specs.Runs.{BytesAreNumbered, EndedAreSettled, LeftDisksAreSound, NewDisksBegin, RenewedAreNumbered, RestartsLeaveDisksSound, RestartsLeaveSound, RunsLeaveDisksSound, RunsLeaveSound, SoundDisksBegin, UnaskedDisksBegin, WritesStayNumbered};
ghost use Rattle.restart_soundness.specs.Soundness.{RestartBegins, RunLeavesSound, StepLeavesSound};

use ds_disk::Disk;

/// Each step of a group restart over a sound disk with the logs of all members, from its first to its last, leaves a sound disk,
/// whatever the call of the disk comes to, also where the disk dies in it or memory is wanting. It names no damage; and where all is
/// done, no row change is open, each page is as all records leave it, and none is of version 1. So it is behind any number of steps.
pub fn soundness_laws()
    ensures begins { RestartBegins }
    ensures step { StepLeavesSound }
    ensures run { RunLeavesSound }
{
    read_plans::fit_laws();
    read_plans::end_laws();
    restart_reads::restart_laws();
    sound_reads::suit_laws();
    sound_plans::plan_laws();
    sound_steps::step_laws();
}

/// A whole run of a group restart over a sound disk leaves a sound disk with the same rows, wherever it ends: done, failed, in any
/// of its calls, or for want of memory. It names no damage; and where it is done, no row change is open, no log has a tail, each
/// page is as all records leave it, and none is of version 1. Each transaction that has changed a row has a Commit or an Ended then,
/// but for one that was rolled back whole, and had no Ended, before the Checkpoint from which its log was read. Where the disk had none
/// such, what is left has none, wherever the run ends. Such a run is what the contract of `disk_restart::run_restart` tells of it, and
/// of `disk_restart::restart_disk`.
pub fn run_laws()
    ensures run { RunsLeaveSound }
    ensures restart { RestartsLeaveSound }
{
    soundness_laws();
    log_record::log_laws();
    log_reader::reader_laws();
    sound_disk::page_laws();
    sound_plans::queue_laws();
    sound_plans::open_laws();
    sound_steps::step_laws();
    read_plans::fit_laws();
    log_rows::both_tell();
    log_appends::appends_tell();
    log_appends::rests_tell();
}

/// Such a run may begin with each sound disk the numbers of whose pages of version 1 are of the format. They are where all pages
/// are bytes, where no log asks for pages of version 1 to be renewed, and where there are none; and they stay so where a page of bytes
/// is written. What a run leaves is a sound disk with which another may begin.
pub fn disk_laws()
    ensures bytes { BytesAreNumbered }
    ensures renewed { RenewedAreNumbered }
    ensures begin { SoundDisksBegin }
    ensures unasked { UnaskedDisksBegin }
    ensures new { NewDisksBegin }
    ensures left { LeftDisksAreSound }
    ensures written { WritesStayNumbered }
{}

/// In records where no row change of any transaction is open, each has the Commit of its transaction, or a Compensation that takes
/// it back.
pub fn ended_laws()
    ensures { EndedAreSettled }
{}

/// The whole runs again, word for word as the contracts of `disk_restart::run_restart` and `disk_restart::restart_disk` tell of
/// them over a disk of any kind, which has the logs of all members and pages of bytes. So each of these contracts with this law says: a
/// group restart over a sound disk leaves a sound disk whose logs stand for the same rows, also where it is stopped inside a call
/// of the disk; it names no damage; and where it is done, no row change is open, each transaction that it found open has an Ended,
/// no log has a tail, each page is as all records leave it, and none is of version 1.
pub fn group_restart_laws<D: Disk>()
    ensures run { RunsLeaveDisksSound D.alive D.contents }
    ensures restart { RestartsLeaveDisksSound D.alive D.contents }
{
    disk_laws();
    run_laws();
}

/// On a disk on which a group restart was done each log is whole records, and wherever it may be read from, from its first byte or
/// from a Checkpoint that names its own place, each transaction that has changed a row there has a Commit or an Ended there, and none
/// changes a row behind its Commit. So it is where no log of the disk that was restarted could be read from behind a transaction that
/// was rolled back and had no Ended, and no transaction changed a row behind its Commit.
pub fn rest_laws()
    ensures { RestsClose }
{
    log_record::log_laws();
    log_rows::both_tell();
    log_appends::appends_tell();
    log_appends::rests_tell();
}
