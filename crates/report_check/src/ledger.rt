//! The records of logs by the place of their log and by their transaction.

ghost use Rattle.std.specs.Prelude.{◌≡◌, ℕ, [], ◌∷◌, ◌++◌, ◌==◌, ◌&&◌, false, map, if◌then◌else◌, OnOk, IfOk};
ghost use Rattle.report_check.specs.Records.{records_of};
ghost use Rattle.report_check.specs.Commits.{of_tran};
ghost use Rattle.report_check.specs.Ledgers.{held, HasRecords};

use ds_base::NoMemory;
use ds_model::LogRecord;
use log_record::Log;
use std::alloc::Global;
use std::collections::BTreeMap;

/// For each log, by its place, and each transaction the records in the order of the log.
pub type Ledger<'a> = BTreeMap<(u64, u128), Vec<&'a LogRecord>>;

fn take<'a>(alloc: Global, ledger: &mut Ledger<'a>, place: u64, tran: u128) -> Vec<&'a LogRecord>
    ensures items { map (λ r. r.now) result.items ≡ held ledger.old place tran }
    ensures others { (p t : ℕ) → ((place == p) && (tran == t)) ≡ false → held ledger.new p t ≡ held ledger.old p t }
{
    match ledger.remove(&(place, tran)) {
        Some(items) => items,
        None => Vec::new(alloc),
    }
}

fn put<'a>(
    ledger: &mut Ledger<'a>,
    place: u64,
    tran: u128,
    items: Vec<&'a LogRecord>,
) -> Result<(), NoMemory>
    ensures items { OnOk result (held ledger.new place tran ≡ map (λ r. r.now) items.entry.items) }
    ensures others { OnOk result ((p t : ℕ) → ((place == p) && (tran == t)) ≡ false → held ledger.new p t ≡ held ledger.old p t) }
{
    ledger.insert((place, tran), items)?;
    Ok(())
}

fn note<'a>(
    alloc: Global,
    ledger: &mut Ledger<'a>,
    place: u64,
    item: &'a LogRecord,
) -> Result<(), NoMemory>
    ensures { OnOk result ((p t : ℕ) → held ledger.new p t ≡ held ledger.old p t ++ (if place == p then of_tran t (item.now ∷ []) else [])) }
{
    let tran = item.tran.number();
    let mut items = take(alloc, ledger, place, tran);
    items.push(item)?;
    put(ledger, place, tran, items)
}

fn note_log<'a>(
    alloc: Global,
    ledger: &mut Ledger<'a>,
    place: u64,
    records: &'a [LogRecord],
) -> Result<(), NoMemory>
    ensures { OnOk result ((p t : ℕ) → held ledger.new p t ≡ held ledger.old p t ++ (if place == p then of_tran t records.now else [])) }
{
    for item in records {
        note(alloc, ledger, place, item)?;
    }
    Ok(())
}

pub fn ledger_of<'a>(alloc: Global, logs: &'a [Log]) -> Result<Ledger<'a>, NoMemory>
    ensures { IfOk result (λ ledger. HasRecords (records_of logs.now) ledger) }
{
    let mut ledger = BTreeMap::new(alloc);
    for i in 0..logs.len() {
        note_log(alloc, &mut ledger, i as u64, logs[i].records())?;
    }
    Ok(ledger)
}
