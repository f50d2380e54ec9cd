//! The rows that logs stand for.

ghost use Rattle.std.specs.Prelude.{◌≡◌, ◌++◌, ◌||◌, ℕ, map, OnOk, IfOk};
ghost use Rattle.std.specs.BTreeSet as set;
ghost use Rattle.std.specs.Ordering.{nat_cmp};
ghost use Rattle.ds_model.specs.Rows.{AreSorted, listed};
ghost use Rattle.ds_model.specs.Logs.{after_body, has_commit, rows_of_logs};
ghost use Rattle.ds_model.specs.Logs as model;
ghost use Rattle.report_check.specs.Records.{records_of, all_records, chosen, numbered};

use crate::numbered::by_number;
use ds_base::{NoMemory, RowList, Value};
use ds_model::{Body, LogRecord, RowChange};
use log_record::Log;
use spot_map::SpotMap;
use std::alloc::Global;
use std::collections::BTreeSet;

// Adds the transactions whose Commit records these are.
fn note_commits(trans: &mut BTreeSet<u128>, records: &[LogRecord]) -> Result<(), NoMemory>
    ensures { OnOk result ((tran : ℕ) → set.contains nat_cmp trans.new tran ≡ (set.contains nat_cmp trans.old tran || has_commit records.now tran)) }
{
    for item in records {
        if let Body::Commit = item.body {
            trans.insert(item.tran.number())?;
        }
    }
    Ok(())
}

// The transactions that have a Commit record.
fn committed(alloc: Global, logs: &[Log]) -> Result<BTreeSet<u128>, NoMemory>
    ensures { IfOk result (λ trans. (tran : ℕ) → set.contains nat_cmp trans tran ≡ has_commit (all_records logs.now) tran) }
{
    let mut trans = BTreeSet::new(alloc);
    for log in logs {
        note_commits(&mut trans, log.records())?;
    }
    Ok(trans)
}

fn keep<'a>(
    kept: &mut Vec<(u128, &'a LogRecord)>,
    trans: &BTreeSet<u128>,
    records: &'a [LogRecord],
) -> Result<(), NoMemory>
    ensures { OnOk result (map (λ p. (p.0, p.1.now)) kept.new.items ≡ map (λ p. (p.0, p.1.now)) kept.old.items ++ chosen (set.contains nat_cmp trans.now) records.now) }
{
    for item in records {
        if trans.contains(&item.tran.number()) {
            kept.push((item.lrsn.number(), item))?;
        }
    }
    Ok(())
}

// The records of these transactions, each with its number.
fn records_by<'a>(
    alloc: Global,
    trans: &BTreeSet<u128>,
    logs: &'a [Log],
) -> Result<Vec<(u128, &'a LogRecord)>, NoMemory>
    ensures { IfOk result (λ kept. map (λ p. (p.0, p.1.now)) kept.items ≡ chosen (set.contains nat_cmp trans.now) (all_records logs.now)) }
{
    let mut kept = Vec::new(alloc);
    for log in logs {
        keep(&mut kept, trans, log.records())?;
    }
    Ok(kept)
}

fn put(rows: &mut SpotMap<Value>, change: &RowChange) -> Result<(), NoMemory>
    ensures { OnOk result (rows.new ≡ model.set_row rows.old change.now.table change.now.key change.now.after) }
{
    match change.after {
        None => {
            rows.remove(change.table, change.key);
            Ok(())
        }
        Some(value) => rows.insert(change.table, change.key, value),
    }
}

/// Does the row change of a log record, if it is one.
pub fn apply(rows: &mut SpotMap<Value>, item: &LogRecord) -> Result<(), NoMemory>
    ensures { OnOk result (rows.new ≡ after_body rows.old item.now.body) }
{
    match &item.body {
        Body::RowChange { change } => put(rows, change),
        _ => Ok(()),
    }
}

/// The rows that logs stand for: those that the row changes of committed transactions leave, in the order of the numbers
/// of their records.
///
/// Takes n steps times the logarithm of n, over n records.
pub fn rows_of(alloc: Global, logs: &[Log]) -> Result<RowList, NoMemory>
    ensures rows { IfOk result (λ rows. rows ≡ listed (rows_of_logs (records_of logs.now))) }
    ensures in_order { IfOk result AreSorted }
{
    let trans = committed(alloc, logs)?;
    let mut rows = SpotMap::new(alloc);
    let sorted = by_number(alloc, records_by(alloc, &trans, logs)?)?;
    for item in &sorted {
        apply(&mut rows, item.1)?;
    }
    rows.into_rows(alloc)
}
