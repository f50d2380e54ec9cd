ghost use Rattle.std.specs.Prelude.{◌≡◌, ◌≢◌, ◌≤◌, ◌⊎◌, ℕ, Some};
ghost use Rattle.ds_base.specs.Causes.{Rose};
ghost use Rattle.ds_disk.specs.Contents.{Becomes};
ghost use Rattle.disk_restart.specs.Keeping.{KeepsRecords};
ghost use Rattle.group_core.specs.Goes.{IsFailed};
ghost use Rattle.group_core.specs.declared.fault.RunFault.TheVariants as fault;
ghost use Rattle.checked_run.specs.declared.ended.Ended.TheVariants as ended;
ghost use Rattle.checked_run.specs.Accounts.{no_account};
ghost use Rattle.checked_run.specs.Outcomes.{Comes, ComesFrom, IsShown, Shows};
ghost use Rattle.checked_run.specs.Restarted.{EndsBy, IsLeftByRestarts, IsRestarted, TellsDamageOf};

use crate::account::no_account;
use crate::copies::copy_rows;
use crate::ended::{Ended, Outcome, Ran};
use crate::fault::fault_of;
use crate::plain::plain_report;
use disk_restart::{State, keeping_laws, restart_disk};
use ds_base::{NoMemory, RowList};
use ds_disk::Disk;
use group_core::RunFault;
use opening_rows::read_opening;
use std::alloc::Global;

// Runs a group restart to its end. Answers why it didn't come to its end.
fn restart<D: Disk>(alloc: Global, disk: &mut D) -> Option<RunFault>
    ensures failed { IsFailed result → Rose (D.faults disk.old) (D.faults disk.new) }
    ensures lawful { (place : ℕ) → result ≢ Some (fault.Unlawful place) }
    ensures ends { EndsBy D.alive D.contents disk.old result disk.new }
    ensures keeps { Becomes (D.contents disk.old) (D.contents disk.new) KeepsRecords }
    ensures later { D.faults disk.old ≤ D.faults disk.new }
{
    match restart_disk(alloc, disk) {
        Ok(State::Done { .. }) => None,
        Ok(State::Failed) => Some(RunFault::Failed),
        Ok(State::Damaged { volume, at }) => Some(RunFault::Damaged { volume, at }),
        Ok(State::Going) | Err(NoMemory) => Some(RunFault::NoMemory),
    }
}

// The report of these rows.
fn told_rows(alloc: Global, rows: &RowList, status: u8) -> Ended
    ensures { IsShown rows.now status result }
{
    match copy_rows(alloc, rows) {
        Ok(rows) => Ended::Told(plain_report(alloc, rows, status)),
        Err(NoMemory) => Ended::NoMemory,
    }
}

// Closes a disk that is shown, and answers what it came to.
fn close_shown<D: Disk>(alloc: Global, disk: &mut D, rows: &RowList) -> Ended
    ensures shown { Shows (D.faults disk.old) (D.faults disk.new) rows.now result }
    ensures restarts { IsRestarted D.alive D.contents disk.old (λ v at. result ≡ ended.Damaged v at) disk.new }
    ensures keeps { Becomes (D.contents disk.old) (D.contents disk.new) KeepsRecords }
    ensures later { D.faults disk.old ≤ D.faults disk.new }
{
    match restart(alloc, disk) {
        None => told_rows(alloc, rows, 0),
        Some(RunFault::Failed) => told_rows(alloc, rows, 5),
        Some(RunFault::Damaged { volume, at }) => Ended::Damaged { volume, at },
        Some(RunFault::Unlawful { .. }) => unreachable!(),
        Some(RunFault::NoMemory) => Ended::NoMemory,
    }
}

// Opens and closes a disk whose logs stand for these rows.
fn show_from<D: Disk>(alloc: Global, mut disk: D, rows: RowList) -> Ran<D>
    ensures comes { ComesFrom rows (D.faults disk) (D.faults result.disk) result.account (Shows (D.faults disk) (D.faults result.disk)) result.outcome }
    ensures keeps { Becomes (D.contents disk) (D.contents result.disk) KeepsRecords }
    ensures restarts { IsRestarted D.alive D.contents disk (TellsDamageOf result.outcome) result.disk }
    ensures account { result.account ≡ no_account }
    ensures later { D.faults disk ≤ D.faults result.disk }
{
    keeping_laws();
    if let Some(why) = restart(alloc, &mut disk) {
        return Ran {
            disk,
            outcome: Outcome::Unopened(why),
            account: no_account(alloc),
        };
    }
    let ended = close_shown(alloc, &mut disk, &rows);
    Ran {
        disk,
        outcome: Outcome::Opened {
            opening: rows,
            ended,
        },
        account: no_account(alloc),
    }
}

/// Shows the rows for which the logs of a disk stand: reads the logs, opens the disk by a group restart, and closes it by another.
///
/// The logs keep their row changes, page changes for no transaction and commits, and get no others. Nothing but the two group
/// restarts writes to the disk.
pub fn show_disk<D: Disk>(alloc: Global, mut disk: D) -> Ran<D>
    ensures comes { Comes (D.contents disk) (D.faults disk) (D.faults result.disk) result.account (Shows (D.faults disk) (D.faults result.disk)) result.outcome }
    ensures keeps { Becomes (D.contents disk) (D.contents result.disk) KeepsRecords }
    ensures restarts { IsLeftByRestarts D.alive D.contents disk (TellsDamageOf result.outcome) result.disk }
    ensures account { result.account ≡ no_account }
    ensures later { D.faults disk ≤ D.faults result.disk }
{
    keeping_laws();
    match read_opening(alloc, &mut disk) {
        Err(why) => Ran {
            disk,
            outcome: Outcome::Unopened(fault_of(why)),
            account: no_account(alloc),
        },
        Ok(opening) => show_from(alloc, disk, opening.rows),
    }
}
