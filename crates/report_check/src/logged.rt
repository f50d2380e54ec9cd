//! Whether the logs tell of the commits of a report.

ghost use Rattle.std.specs.Prelude.{◌≡◌, ◌-◌, List, true, map, drop, slice_set, OnOk, IfOk, Decides};
ghost use Rattle.ds_model.specs.declared.log.LogRecord.{LogRecord as AnyRecord};
ghost use Rattle.ds_model.specs.Rows.{AreSorted, map_of};
ghost use Rattle.ds_model.specs.Effect.{after_tran};
ghost use Rattle.ds_model.specs.Logs.{after_records};
ghost use Rattle.ds_model.specs.History.{after_fate};
ghost use Rattle.report_check.specs.Records.{records_of};
ghost use Rattle.report_check.specs.Commits.{at_member, FirstMakes, FateIsLogged, left_behind, AreLogged};
ghost use Rattle.report_check.specs.Commits as model;
ghost use Rattle.report_check.specs.Ledgers.{held, HasRecords};

use crate::commits::{new_commits, next_commit, none_left};
use crate::effect::have_one_effect;
use crate::ledger::{Ledger, ledger_of};
use ds_base::{MemberId, NoMemory, RowList, Value};
use ds_model::{Entry, Fate, Op};
use log_record::Log;
use spot_map::SpotMap;
use std::alloc::Global;
use std::collections::VecDeque;

// Whether the records of a transaction do what these operations do.
fn has_effect(
    alloc: Global,
    ledger: &Ledger,
    rows: &mut SpotMap<Value>,
    logged: &mut SpotMap<Value>,
    place: u64,
    tran: u128,
    ops: &[Op],
) -> Result<bool, NoMemory>
    requires { logged.old ≡ rows.old }
    ensures rows { OnOk result (rows.new ≡ after_tran rows.old ops.now) }
    ensures same { IfOk result (λ same. Decides same (after_records rows.old (held ledger.now place tran) ≡ after_tran rows.old ops.now)) }
    ensures logged { IfOk result (λ same. same ≡ true → logged.new ≡ rows.new) }
{
    if let Some(items) = ledger.get(&(place, tran)) {
        return have_one_effect(alloc, rows, logged, ops, items.as_slice());
    }
    let none = Vec::new(alloc);
    have_one_effect(alloc, rows, logged, ops, &none)
}

// Whether a member has a commit left whose records do what these operations do.
fn has_commit(
    alloc: Global,
    ledger: &Ledger,
    commits: &mut [VecDeque<u128>],
    rows: &mut SpotMap<Value>,
    logged: &mut SpotMap<Value>,
    member: MemberId,
    ops: &[Op],
) -> Result<bool, NoMemory>
    requires { logged.old ≡ rows.old }
    ensures same { (logs : List (List AnyRecord)) → HasRecords logs ledger.now → IfOk result (λ same. Decides same (FirstMakes (at_member logs member) (at_member (map (λ q. q.items) commits.old) member) rows.old (after_tran rows.old ops.now))) }
    ensures rows { IfOk result (λ same. same ≡ true → rows.new ≡ after_tran rows.old ops.now) }
    ensures logged { IfOk result (λ same. same ≡ true → logged.new ≡ rows.new) }
    ensures left { map (λ q. q.items) commits.new ≡ slice_set (map (λ q. q.items) commits.old) (member - 1) (drop 1 (at_member (map (λ q. q.items) commits.old) member)) }
{
    match next_commit(commits, member) {
        None => Ok(false),
        Some(tran) => has_effect(alloc, ledger, rows, logged, member.number() - 1, tran, ops),
    }
}

fn is_logged(
    alloc: Global,
    ledger: &Ledger,
    commits: &mut [VecDeque<u128>],
    rows: &mut SpotMap<Value>,
    logged: &mut SpotMap<Value>,
    entry: &Entry,
) -> Result<bool, NoMemory>
    requires { logged.old ≡ rows.old }
    ensures same { (logs : List (List AnyRecord)) → HasRecords logs ledger.now → IfOk result (λ same. Decides same (FateIsLogged (at_member logs entry.now.member) (at_member (map (λ q. q.items) commits.old) entry.now.member) rows.old entry.now.tran.ops entry.now.fate)) }
    ensures rows { IfOk result (λ same. same ≡ true → rows.new ≡ after_fate rows.old entry.now.tran.ops entry.now.fate) }
    ensures logged { IfOk result (λ same. same ≡ true → logged.new ≡ rows.new) }
    ensures left { map (λ q. q.items) commits.new ≡ left_behind (map (λ q. q.items) commits.old) entry.now.member entry.now.fate }
{
    let ops = entry.tran.ops.as_slice();
    match &entry.fate {
        Fate::Committed { .. } => {
            has_commit(alloc, ledger, commits, rows, logged, entry.member, ops)
        }
        Fate::Refused(_) => Ok(true),
        Fate::Stopped => Ok(true),
    }
}

fn all_logged(
    alloc: Global,
    ledger: &Ledger,
    commits: &mut [VecDeque<u128>],
    rows: &mut SpotMap<Value>,
    logged: &mut SpotMap<Value>,
    entries: &[Entry],
) -> Result<bool, NoMemory>
    requires { logged.old ≡ rows.old }
    ensures { (logs : List (List AnyRecord)) → HasRecords logs ledger.now → IfOk result (λ same. Decides same (AreLogged logs (map (λ q. q.items) commits.old) rows.old entries.now)) }
{
    for entry in entries {
        if !is_logged(alloc, ledger, commits, rows, logged, entry)? {
            return Ok(false);
        }
    }
    Ok(none_left(commits))
}

/// Whether the committed entries have the new commits of their members' logs, in order, one each and with the same effect on the
/// rows that one thread has reached; and no commit is left.
pub fn are_logged(
    alloc: Global,
    opening: &RowList,
    entries: &[Entry],
    logs: &[Log],
    had: &[usize],
) -> Result<bool, NoMemory>
    requires { AreSorted opening.now }
    ensures { IfOk result (λ same. Decides same (AreLogged (records_of logs.now) (model.new_commits had.now (records_of logs.now)) (map_of opening.now) entries.now)) }
{
    let ledger = ledger_of(alloc, logs)?;
    let mut commits = new_commits(alloc, logs, had)?;
    let mut rows = SpotMap::from_rows(alloc, opening)?;
    let mut logged = SpotMap::from_rows(alloc, opening)?;
    all_logged(
        alloc,
        &ledger,
        &mut commits,
        &mut rows,
        &mut logged,
        entries,
    )
}
