//! The locks of a whole run of which a call of the program tells: behind each event no two claims conflict, and each claim is
//! covered.
//!
//! The crate has definitions and proofs alone. Its functions do nothing: their contracts are the laws.
#![tactic(auto)]

ghost use Rattle.sound_locks.specs.Claims.{TiedAreSound};
ghost use Rattle.sound_locks.specs.Open.{LogsRetain};
ghost use Rattle.sound_locks.specs.Plays.{LedKeepLocks, PlaysKeepLocks, UnfailedAreSound};

use cache_structure::Cache;
use ds_disk::Disk;
use lock_protocol::claims_give;
use member_core::Member;
use rested_logs::locked_runs;

/// In a group that stands beside a sound world of locks the claims that stand in its members' lock managers, and those of the
/// pages that their restarts have locked, don't conflict; and the facility has interest or a retained record for each. Where the logs
/// on disk have their claims in that world, each row that a transaction of a failed member has changed, and that its log leaves open, is
/// claimed by nobody, and retained in X.
pub fn claims_are_sound()
    ensures sound { TiedAreSound }
    ensures retained { LogsRetain }
{
    claims_give();
}

/// Behind each event of a run over a sound disk whose logs close what need not be read of them the claims are sound, for members of
/// any kind. A run in which the whole group fails has a premise more: that each disk that such a failure leaves is sound.
pub fn runs_keep_locks<D: Disk, P>()
    ensures led { LedKeepLocks P D.alive D.contents D.faults }
    ensures unfailed { UnfailedAreSound P D.alive D.contents D.faults }
{
    claims_are_sound();
    locked_runs::<D, Cache, P>();
}

/// So it is of the run of which a call of `group_run::play` tells that has opened a disk.
pub fn plays_keep_locks<D: Disk>()
    ensures { PlaysKeepLocks D.alive D.contents D.faults }
{
    runs_keep_locks::<D, Member>();
}
