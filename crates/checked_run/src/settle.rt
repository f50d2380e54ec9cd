//! What a run that has ended comes to.

ghost use Rattle.std.specs.Prelude.{◌≡◌, ◌≤◌, ◌+◌, ◌⊎◌, ℕ, Bool, true, false, cond, length, map, [], Option, None, Ok, IsErr, IfOk, IfErr};
ghost use Rattle.ds_base.specs.Causes.{Rose};
ghost use Rattle.ds_model.specs.Rows.{AreSorted};
ghost use Rattle.ds_model.specs.Told.{entry_of};
ghost use Rattle.group_core.specs.Closing.{is_closed, is_run};
ghost use Rattle.group_core.specs.Goes.{HasFailed, IsFailed};
ghost use Rattle.group_core.specs.declared.closed.Closed.TheVariants as closing;
ghost use Rattle.group_core.specs.declared.fault.RunFault.{RunFault as AnyFault};
ghost use Rattle.group_core.specs.declared.schedule.RunEnd.{RunEnd as AnyEnd};
ghost use Rattle.group_core.specs.declared.schedule.RunEnd.TheVariants as ends;
ghost use Rattle.checked_run.specs.declared.account.Account.{Account as AnyAccount};
ghost use Rattle.checked_run.specs.declared.ended.Ended.TheVariants as ended;
ghost use Rattle.checked_run.specs.Accounts.{account_of, TellsTrace};
ghost use Rattle.checked_run.specs.Refuted.{IsRefuted};
ghost use Rattle.checked_run.specs.Settled.{IsPlayed, Refuses, Checks, RefutesEntries, CanSettle, Settles};
ghost use Rattle.checked_run.specs.Told.{IfTold, IsTold, TellsAlways, TellsEntries};

use crate::account::{Account, CauseList, FailList, Journal};
use crate::ended::Ended;
use crate::logs::check_back;
use crate::order::in_print_order;
use crate::report::{told_unread, told_with};
use crate::trace::trace_of;
use ds_base::NoMemory;
use ds_disk::Disk;
use ds_model::{Entry, Script, Trace};
use group_core::{Closed, Line, Played, RunEnd, RunFault};
use opening_rows::Opening;
use std::alloc::Global;

fn status_of(failed: bool) -> u8
    ensures { result ≡ cond failed 5 0 }
{
    if failed { 5 } else { 0 }
}

// Whether a call of the disk has failed at any place.
fn has_failed(faults: &[u64]) -> bool
    ensures failed { result ≡ true → HasFailed faults.now }
    ensures whole { result ≡ false → faults.now ≡ [] }
{
    !faults.is_empty()
}

// The place of the event behind these.
fn next_place(journal: &[u64]) -> u64
    ensures { result ≡ length journal.now + 1 }
{
    journal.len() as u64 + 1
}

// Whether a call of the disk has failed in a run that was closed so; or what the run came to without a report.
fn failure_with(failed: bool, closed: Closed) -> Result<bool, Ended>
    requires { is_run closed ≡ true }
    ensures whole { IfOk result (λ now. now ≡ false → (failed ≡ false) × (closed ≡ closing.Done)) }
    ensures cause { IfOk result (λ now. now ≡ true → (failed ≡ true) ⊎ (closed ≡ closing.Failed)) }
    ensures refused { (end : AnyEnd) (why : Option AnyFault) (events : ℕ) → IfErr result (Refuses end why events) }
{
    match closed {
        Closed::Done => Ok(failed),
        Closed::Failed => Ok(true),
        Closed::Damaged { volume, at } => Err(Ended::Damaged { volume, at }),
        Closed::NoMemory => Err(Ended::NoMemory),
        Closed::Unrun => unreachable!(),
    }
}

// The same of a run that ended so, in which a call of the disk has failed or not. The place is that of the event that would be next.
fn failure_of(
    failed: bool,
    fault: Option<RunFault>,
    end: RunEnd,
    closed: Closed,
    next: u64,
) -> Result<bool, Ended>
    requires run { is_run closed ≡ is_closed fault }
    requires unspent { end ≡ ends.Spent → ⊥ }
    ensures whole { IfOk result (λ now. now ≡ false → (failed ≡ false) × ((fault ≡ None) × (end ≡ ends.Over))) }
    ensures cause { IfOk result (λ now. now ≡ true → (failed ≡ true) ⊎ (IsFailed fault ⊎ (closed ≡ closing.Failed))) }
    ensures played { IfOk result (λ _. IsPlayed end fault) }
    ensures refused { (events : ℕ) → next ≡ events + 1 → IfErr result (Refuses end fault events) }
{
    match (fault, end) {
        (Some(RunFault::NoMemory), _) => Err(Ended::NoMemory),
        (Some(RunFault::Damaged { volume, at }), _) => Err(Ended::Damaged { volume, at }),
        (Some(RunFault::Unlawful { place }), _) => Err(Ended::Unsound { event: place }),
        (Some(RunFault::Failed), _) => failure_with(true, closed),
        (None, RunEnd::Over) => failure_with(failed, closed),
        (None, RunEnd::Stalled) => Err(Ended::Unsound { event: next }),
        (None, RunEnd::Spent) => unreachable!(),
    }
}

// Holds entries against script, opening rows and logs.
fn check_entries<D: Disk>(
    alloc: Global,
    disk: &mut D,
    script: &Script,
    opening: &Opening,
    entries: Vec<Entry>,
    trace: Trace,
    failed: bool,
) -> Result<Ended, NoMemory>
    requires { AreSorted opening.now.rows }
    ensures checks { (before : ℕ) (traced : Bool) (account : AnyAccount) → before ≤ D.faults disk.old → (failed ≡ true → Rose before (D.faults disk.old)) → (failed ≡ false → account.faults ≡ []) → TellsTrace script.now traced account.causes trace →
        IfOk result (Checks
        (IsTold (TellsAlways D.contents) script.now traced opening.now.rows before (D.faults disk.new) (D.contents disk.new) account)
        (IsRefuted (TellsAlways D.contents) script.now opening.now entries.items before (D.faults disk.new) (D.contents disk.new))) }
    ensures tells { IfOk result (λ ended. IfTold ended (λ report. (report.entries ≡ map (entry_of script.now) entries.items) × (report.status ≡ 0 → failed ≡ false))) }
    ensures later { D.faults disk.old ≤ D.faults disk.new }
{
    let (read, failed) = check_back(alloc, disk, script, opening, &entries, failed);
    match read {
        Ok(rows) => told_with(
            alloc,
            script,
            opening,
            entries,
            rows,
            trace,
            status_of(failed),
        ),
        Err(why) => told_unread(alloc, script, &opening.rows, entries, trace, why),
    }
}

// Holds the report of a run against script, opening rows and logs. Its entries stand in the order of their fates.
fn check<D: Disk>(
    alloc: Global,
    disk: &mut D,
    script: &Script,
    opening: &Opening,
    entries: Vec<Entry>,
    trace: Result<Trace, NoMemory>,
    failed: bool,
) -> Result<Ended, NoMemory>
    requires { AreSorted opening.now.rows }
    ensures checks { (before : ℕ) (traced : Bool) (account : AnyAccount) → before ≤ D.faults disk.old → (failed ≡ true → Rose before (D.faults disk.old)) → (failed ≡ false → account.faults ≡ []) → IfOk trace (TellsTrace script.now traced account.causes) →
        IfOk result (Checks
        (IsTold (TellsAlways D.contents) script.now traced opening.now.rows before (D.faults disk.new) (D.contents disk.new) account)
        (RefutesEntries (TellsAlways D.contents) script.now opening.now entries.items before (D.faults disk.new) (D.contents disk.new))) }
    ensures tells { IfOk result (λ ended. IfTold ended (λ report. TellsEntries script.now entries.items report.entries × (report.status ≡ 0 → failed ≡ false))) }
    ensures later { D.faults disk.old ≤ D.faults disk.new }
{
    let trace = trace?;
    let printed = in_print_order(entries)?;
    check_entries(alloc, disk, script, opening, printed, trace, failed)
}

// What a run leaves to be checked: its entries in the order of their fates.
#[derive(Drop)]
struct Unchecked {
    account: Account,
    trace: Result<Trace, NoMemory>,
    entries: Vec<Entry>,
}

fn take_apart(alloc: Global, script: &Script, played: Played, is_traced: bool) -> Unchecked
    ensures account { result.account ≡ account_of played }
    ensures trace { IfOk result.trace (TellsTrace script.now is_traced played.causes.items) }
    ensures entries { result.entries.items ≡ played.entries.items }
{
    let Played {
        entries,
        causes,
        journal,
        lines,
        faults,
        ..
    } = played;
    let trace = trace_of(alloc, script, &causes, &lines, is_traced);
    let account = Account {
        journal: Journal::from_vec(journal),
        causes: CauseList::from_vec(causes),
        faults: FailList::from_vec(faults),
    };
    Unchecked {
        account,
        trace,
        entries,
    }
}

// What a run comes to that has ended well, or with a call of the disk that failed.
fn ended_with<D: Disk>(
    alloc: Global,
    disk: &mut D,
    script: &Script,
    opening: &Opening,
    entries: Vec<Entry>,
    trace: Result<Trace, NoMemory>,
    failed: bool,
) -> Ended
    requires { AreSorted opening.now.rows }
    ensures settles { (before : ℕ) (traced : Bool) (account : AnyAccount) (end : AnyEnd) (why : Option AnyFault) → before ≤ D.faults disk.old → CanSettle before (D.faults disk.old) account.faults (length account.journal) end why (Ok failed) → IfOk trace (TellsTrace script.now traced account.causes) →
        Settles (TellsAlways D.contents) script.now traced opening.now before (D.faults disk.new) (D.contents disk.new) account end why entries.items result }
    ensures later { D.faults disk.old ≤ D.faults disk.new }
{
    match check(alloc, disk, script, opening, entries, trace, failed) {
        Ok(ended) => ended,
        Err(NoMemory) => Ended::NoMemory,
    }
}

// What a run comes to, of which a call of the disk has failed or not, or which has come to this without a report.
fn ended_of<D: Disk>(
    alloc: Global,
    disk: &mut D,
    script: &Script,
    opening: &Opening,
    entries: Vec<Entry>,
    trace: Result<Trace, NoMemory>,
    failure: Result<bool, Ended>,
) -> Ended
    requires { AreSorted opening.now.rows }
    ensures settles { (before : ℕ) (traced : Bool) (account : AnyAccount) (end : AnyEnd) (why : Option AnyFault) → before ≤ D.faults disk.old → CanSettle before (D.faults disk.old) account.faults (length account.journal) end why failure → IfOk trace (TellsTrace script.now traced account.causes) →
        Settles (TellsAlways D.contents) script.now traced opening.now before (D.faults disk.new) (D.contents disk.new) account end why entries.items result }
    ensures later { D.faults disk.old ≤ D.faults disk.new }
{
    match failure {
        Err(ended) => ended,
        Ok(failed) => ended_with(alloc, disk, script, opening, entries, trace, failed),
    }
}

// What a run that ended so has come to before it is checked.
fn failure_in(played: &Played, end: RunEnd, closed: Closed) -> Result<bool, Ended>
    requires run { is_run closed ≡ is_closed played.now.fault }
    requires unspent { end ≡ ends.Spent → ⊥ }
    ensures { (before now : ℕ) → ((HasFailed played.now.faults.items ⊎ (IsFailed played.now.fault ⊎ (closed ≡ closing.Failed))) → Rose before now) → CanSettle before now played.now.faults.items (length played.now.journal.items) end played.now.fault result }
{
    let failed = has_failed(&played.faults);
    let next = next_place(&played.journal);
    failure_of(failed, played.fault, end, closed, next)
}

/// What a run of this script came to, which has ended and was closed so, or wanted memory; and what is kept of its events.
pub fn settle<D: Disk>(
    alloc: Global,
    disk: &mut D,
    script: &Script,
    opening: &Opening,
    played: Played,
    end: Result<RunEnd, NoMemory>,
    closed: Closed,
    is_traced: bool,
) -> (Account, Ended)
    requires in_order { AreSorted opening.now.rows }
    requires run { is_run closed ≡ is_closed played.fault }
    requires unspent { end ≡ Ok ends.Spent → ⊥ }
    ensures account { result.0 ≡ account_of played }
    ensures settles { (before : ℕ) (e : AnyEnd) → before ≤ D.faults disk.old → ((HasFailed played.faults.items ⊎ (IsFailed played.fault ⊎ (closed ≡ closing.Failed))) → Rose before (D.faults disk.old)) → end ≡ Ok e →
        Settles (TellsAlways D.contents) script.now is_traced opening.now before (D.faults disk.new) (D.contents disk.new) result.0 e played.fault played.entries.items result.1 }
    ensures wanting { IsErr end → result.1 ≡ ended.NoMemory }
    ensures later { D.faults disk.old ≤ D.faults disk.new }
{
    match end {
        Err(NoMemory) => {
            let left = take_apart(alloc, script, played, is_traced);
            (left.account, Ended::NoMemory)
        }
        Ok(end) => {
            let failure = failure_in(&played, end, closed);
            let Unchecked {
                account,
                trace,
                entries,
            } = take_apart(alloc, script, played, is_traced);
            let ended = ended_of(alloc, disk, script, opening, entries, trace, failure);
            (account, ended)
        }
    }
}
