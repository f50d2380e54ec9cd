//! What the failure of a member is to its group's world of locks, beside the log that it leaves: moves of the member lead to a sound world,
//! beside which the group stands, in which the rollback of each transaction claims the rows that the transaction had locked. So each that the
//! last records of the log leave open has its claims, up to the restart of the member.
//!
//! The crate has definitions and proofs alone. Its functions do nothing: their contracts are the theorems.
#![tactic(auto)]

ghost use Rattle.failed_logs.specs.Failures.{DownHandsOver, UpHandsOver};
ghost use Rattle.failed_logs.specs.Logs.{
  BeginsClaimed,
  FailsClaimed,
  FailsLocked,
  FailsUnread,
  IdleTakesOver,
  MovesLeaveClaimed,
  TakenOverLocked,
};

use adopted_rows::rows_taken_over;
use failed_claims::{claims_handed_over, failures_leave};
pub use group_locks::{
    groups_go, groups_run, member_restarts_go, member_steps_go, members_go, moves_spare, phases_go,
    resting_members_go,
};
use group_locks::{member_failures_go, members_fail};
use left_open::left_is_locked;
pub use left_open::logs_stay_locked;
use lock_protocol::keeps_sound;
use log_appends::appends_tell;
use restart_claims::claims_tell;

/// So it is where a member fails that was up: each row that a slot's transaction, or a rollback, had locked is claimed by the rollback which has
/// the name of the transaction in the log.
pub fn failures_hand_over()
    ensures { UpHandsOver }
{
    keeps_sound();
    members_fail();
    member_failures_go();
    failures_leave();
    claims_handed_over();
}

/// And so where one fails that wasn't: no slot of it has a transaction, and what its rollbacks had locked they claim. Each row that an owner had
/// claimed in the world it claims still.
pub fn failures_keep()
    ensures { DownHandsOver }
{
    keeps_sound();
    members_fail();
    member_failures_go();
    failures_leave();
}

/// Behind the failure of a member that was up each transaction that the last records of its log leave open has its claims, whatever of the log
/// buffer is on disk then; and it still has them where the member fails again before its restart has changed the log, or once it has taken over
/// what its restart has left open.
pub fn failures_claim()
    ensures up { FailsClaimed }
    ensures unread { FailsUnread }
    ensures locked { FailsLocked }
{
    failures_hand_over();
    failures_keep();
    left_is_locked();
}

/// It has them behind the events of others, and behind phases that begin; and a restart that begins finds them.
pub fn claims_stay()
    ensures others { MovesLeaveClaimed }
    ensures begin { BeginsClaimed }
{
    moves_spare();
    claims_tell();
}

/// Once the member has taken over what its restart has left open, the rows of its log are locked again, wherever reading may begin; so they
/// are where it had no transaction before, and takes over all that the log leaves open.
pub fn logs_taken_over()
    ensures taken { TakenOverLocked }
    ensures idle { IdleTakesOver }
{
    appends_tell();
    rows_taken_over();
}
