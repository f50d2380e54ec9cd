//! What a call of the program over a sound disk comes to, where it lets nothing but group restarts write to it.
//!
//! The crate has definitions and proofs alone. Its function does nothing: its contract is the law.
#![tactic(auto)]

ghost use Rattle.sound_plays.specs.Plays.{PlaysLeaveSound};

use ds_disk::Disk;

/// By its contract `group_run::play` lets nothing but group restarts write to the disk where no run opened, and where the rows
/// of a disk are shown. So over a sound disk no such call ends with status 7: neither the opening of a run finds damage, nor the
/// showing of rows. And the disk that it leaves is sound, with logs that stand for the same rows, also where a group restart was
/// stopped inside a call of the disk.
pub fn soundness_laws<D: Disk>()
    ensures { PlaysLeaveSound D.alive D.contents }
{
    log_record::reading_laws();
    log_record::log_laws();
    restart_soundness::disk_laws();
    restart_soundness::group_restart_laws::<D>();
}
