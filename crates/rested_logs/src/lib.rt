//! The logs of a group's members where a group restart begins, and behind one that is done: they close what need not be read of them, and behind it
//! they leave nothing open, so that the group stands beside them again. So the locks of whole runs are sound, whatever the policies.
//!
//! The crate has definitions and proofs alone. Its functions do nothing: their contracts are the theorems.
#![tactic(auto)]

ghost use Rattle.rested_logs.specs.Counts.{RestsBelow, RunsEnd};
ghost use Rattle.rested_logs.specs.Others.{OthersStay};
ghost use Rattle.rested_logs.specs.Runs.{LockedRunsStand};
ghost use Rattle.rested_logs.specs.Rests.{AlikeLeaveClosed, ClosingCloses, EmptyCloses, EmptyLeaveClosed, GroupsLeaveClosed, GroupsStandAnew, RestsLogged};

use cache_structure::CacheFace;
use claimed_logs::{
    events_keep, groups_go, groups_log, knowing_runs, known_ends, known_starts, logs_claimed,
};
use ds_disk::Disk;
use log_appends::{appends_tell, rests_tell};
use log_record::{log_laws, reading_laws};
use log_rows::open_trans_tell;
use restart_soundness::{disk_laws, group_restart_laws, rest_laws, soundness_laws};

/// On the disk that a group leaves, whatever event it was before, and on one with empty logs, each transaction that has changed a row is closed in
/// its log where that may be read from a Checkpoint on behind which none of its records stands; and none changes a row behind its Commit. Logs of
/// which no member is there are to leave nothing open.
pub fn logs_leave_closed()
    ensures alike { AlikeLeaveClosed }
    ensures groups { GroupsLeaveClosed }
    ensures none { EmptyCloses }
    ensures empty { EmptyLeaveClosed }
{
    reading_laws();
    log_laws();
    open_trans_tell();
    appends_tell();
    rests_tell();
    logs_claimed();
}

/// So behind a group restart over such a disk that is done, each log leaves nothing open, and the group that begins anew stands beside its logs, if no
/// record names its transaction by a number above the counter.
pub fn logs_rest()
    ensures closing { ClosingCloses }
    ensures logs { RestsLogged }
    ensures anew { GroupsStandAnew }
{
    logs_leave_closed();
    rest_laws();
    known_ends();
    logs_claimed();
}

/// The logs of which no member is there stay as they were behind any event of a group that isn't refused, and is no call of a group restart.
pub fn others_stay<D: Disk, C: CacheFace, P>()
    ensures { OthersStay P C.directory D.alive D.contents D.faults }
{
    groups_log::<D, C, P>();
}

/// No number by which a record of the logs names its transaction is above the counter of a group restart that is done. Over a sound disk, from its
/// begin on, such a restart knows where each log ends.
pub fn rests_count()
    ensures below { RestsBelow }
    ensures ends { RunsEnd }
{
    log_laws();
    appends_tell();
    rests_tell();
    disk_laws();
    soundness_laws();
}

/// Wherever events lead a group that has just started over a sound disk, whatever its policies, none of which is refused: it stands beside a sound world
/// of locks, and the claims that its members know of agree. No two of them conflict, and each stands behind what the lock table has for its member. The
/// disk was opened by a group restart, and what is left out of its logs was closed, as it is on an empty one, and on each that such a run leaves. Only
/// where the whole group fails the disk is to be sound then.
pub fn locked_runs<D: Disk, C: CacheFace, P>()
    ensures { LockedRunsStand P C.directory D.alive D.contents D.faults }
{
    groups_go();
    groups_log::<D, C, P>();
    known_starts::<C, P>();
    logs_claimed();
    knowing_runs::<D, C, P>();
    events_keep::<D, C, P>();
    group_restart_laws::<D>();
    logs_leave_closed();
    logs_rest();
    rests_count();
}
