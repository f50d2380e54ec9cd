//! The logs of a group's members on disk beside the world of locks, behind the events of the group: what a log leaves open has its claims,
//! or its rows are locked. So what a restart hands over to its member has the claims that the member needs for it.
//!
//! The crate has definitions and proofs alone. Its functions do nothing: their contracts are the theorems.
#![tactic(auto)]

ghost use Rattle.claimed_logs.specs.Beginning.{PhasesLogged};
ghost use Rattle.claimed_logs.specs.Events.{RestartEventsLogged, RestingEventsLogged, UpEventsLogged};
ghost use Rattle.claimed_logs.specs.Failing.{HandedBelow, HandedFailsLogged, RestartFailsLogged, RestartsStop, StopsBelow, UpFailsLogged};
ghost use Rattle.claimed_logs.specs.Found.{AdoptionsFound};
ghost use Rattle.claimed_logs.specs.Logs.{ClosingLeaves, FreshLogged, GroupFailsLogged, LogsKnow, LogsLeave, OneLogged};
ghost use Rattle.claimed_logs.specs.Runs.{KnowingRunsStand};
ghost use Rattle.claimed_logs.specs.Steps.{CourseBelow, CourseEnds, CourseHands, CourseSteps, EndsTell, HandedLogged, RestartStepsLogged, RestingStays, UpStepsLogged};
ghost use Rattle.claimed_logs.specs.Taken.{EventsKeep};

use adopted_claims::adopted_have_claims;
use cache_structure::CacheFace;
use ds_disk::Disk;
pub use failed_logs::groups_go;
use failed_logs::{
    claims_stay as logs_stay_claimed, failures_claim, groups_run, logs_stay_locked,
    logs_taken_over, member_restarts_go, member_steps_go, members_go, moves_spare, phases_go,
    resting_members_go,
};
pub use group_logs::{groups_log, known_ends, known_starts};
use group_logs::{members_log, rests_are_unknown};
use lock_restarts::{restarts_follow, sends_lawfully};
use log_appends::{appends_tell, rests_tell};
use log_numbers::{commands_count, forward_stays, numbers_stay};
use log_opens::opens_are_all;
use log_rows::{both_tell, open_trans_tell};
use restart_claims::{claims_stay, claims_tell, restarts_close_truly, stops_are_claimed};
use restart_closing::{closings_tell, failures_leave, restarts_close, restarts_rest};
use restart_law::{lists_go, needs_are_few, opens_stay, reads_true};

/// Where each restart in hand that has read its log knows that what it has left open has its claims, the claims are there that its member
/// needs for what it hands over.
pub fn adoptions_found()
    ensures { AdoptionsFound }
{
    restarts_follow();
    lists_go();
    claims_stay();
    adopted_have_claims();
}

/// So wherever events lead a group that has just started, none refused, it stands beside a sound world of locks, and its claims agree, if
/// restarts know so before each event.
pub fn knowing_runs<D: Disk, C: CacheFace, P>()
    ensures { KnowingRunsStand P C.directory D.alive D.contents D.faults }
{
    adoptions_found();
    groups_run::<D, C, P>();
}

/// The logs have their claims, or their rows are locked, where no member holds anything and they leave nothing open. Then restarts
/// know it; a failure of the group changes nothing of it, nor does an event of a member for the others. Each log leaves the same open
/// wherever reading of it may begin, and no transaction changes a row behind its Commit; so does a log that leaves nothing open.
pub fn logs_claimed()
    ensures fresh { FreshLogged }
    ensures know { LogsKnow }
    ensures fails { GroupFailsLogged }
    ensures leave { LogsLeave }
    ensures closing { ClosingLeaves }
    ensures one { OneLogged }
{
    appends_tell();
    rests_tell();
    both_tell();
    open_trans_tell();
    opens_are_all();
    logs_stay_locked();
    numbers_stay();
    claims_stay();
}

/// So it is behind the begin of a phase, if the restarts that begin were told of whole records alone, and each log is bytes, fewer than
/// 2^64.
pub fn phases_logged()
    ensures { PhasesLogged }
{
    moves_spare();
    logs_stay_claimed();
    opens_stay();
    reads_true();
    claims_stay();
    numbers_stay();
    restarts_close();
    closings_tell();
    needs_are_few();
}

/// Where a member fails that was up, moves of it lead to a world in which it is so again, whatever of the log buffer is on disk then; and so
/// where one fails that restarts, if its log as it is left has its claims, or the rows of it are locked, as they are once the restart has handed
/// over.
pub fn failures_logged()
    ensures up { UpFailsLogged }
    ensures restart { RestartFailsLogged }
    ensures handed { HandedFailsLogged }
{
    appends_tell();
    rests_tell();
    both_tell();
    open_trans_tell();
    opens_are_all();
    numbers_stay();
    logs_stay_locked();
    logs_claimed();
    moves_spare();
    failures_claim();
}

/// So its log has its claims where a restart fails that hasn't handed over, whatever of its log buffer is on disk then, and whether it has read
/// the log or not.
pub fn restarts_stop()
    ensures stops { RestartsStop }
    ensures below { StopsBelow }
    ensures rests { HandedBelow }
{
    appends_tell();
    rests_tell();
    both_tell();
    open_trans_tell();
    opens_are_all();
    stops_are_claimed();
}

/// It stays so of the log of a member that is up, behind an event of it; and of one that restarts, also behind what it hands over.
pub fn steps_logged()
    ensures up { UpStepsLogged }
    ensures restart { RestartStepsLogged }
    ensures handed { HandedLogged }
{
    appends_tell();
    rests_tell();
    both_tell();
    open_trans_tell();
    opens_are_all();
    members_log();
    logs_stay_locked();
    numbers_stay();
    forward_stays();
    commands_count();
    opens_stay();
    reads_true();
    lists_go();
    claims_stay();
    claims_tell();
}

/// What a restart has taken back is closed in the log on disk, and the log leaves open what the restart does; once it has handed over, or has
/// nothing left, the rows of the log are locked, and the member holds what it needs for it. Its own other events change nothing of that, if
/// it puts no record.
pub fn courses_go()
    ensures steps { CourseSteps }
    ensures hands { CourseHands }
    ensures ends { CourseEnds }
    ensures below { CourseBelow }
    ensures tell { EndsTell }
    ensures rests { RestingStays }
{
    appends_tell();
    rests_tell();
    both_tell();
    open_trans_tell();
    opens_are_all();
    sends_lawfully();
    restarts_close_truly();
    closings_tell();
    lists_go();
    reads_true();
    restarts_rest();
    logs_taken_over();
    logs_stay_locked();
    numbers_stay();
    commands_count();
}

/// So the logs of all members stay claimed behind an event of one that is up, if no record of its log names a transaction by a number above the
/// counter: it changes no row for one that the log closes. And
/// behind one of a member that restarts, in which no call of the disk fails: of the restart if it counts no transaction as left where each is
/// over.
pub fn events_logged()
    ensures up { UpEventsLogged }
    ensures restart { RestartEventsLogged }
    ensures resting { RestingEventsLogged }
{
    appends_tell();
    rests_tell();
    both_tell();
    open_trans_tell();
    opens_are_all();
    logs_stay_locked();
    lists_go();
    courses_go();
    logs_claimed();
    steps_logged();
    moves_spare();
    members_log();
    members_go();
    restarts_follow();
    forward_stays();
    commands_count();
    claims_stay();
    numbers_stay();
}

/// So it stays behind any event of a group that isn't refused, while no group restart is in hand; and each log is whole records up to where its
/// member knows it to be.
pub fn events_keep<D: Disk, C: CacheFace, P>()
    ensures { EventsKeep P C.directory D.alive D.contents D.faults }
{
    groups_go();
    phases_go();
    member_steps_go();
    member_restarts_go();
    resting_members_go();
    members_log();
    adoptions_found();
    logs_claimed();
    phases_logged();
    events_logged();
    failures_logged();
    restarts_stop();
    failures_leave();
    closings_tell();
    rests_tell();
    known_ends();
    rests_are_unknown();
}
