//! What is made of the records of all logs, one after the other.

ghost use Rattle.std.specs.Prelude.{◌≡◌, ◌||◌, ◌&&◌, ◌∷◌, [], ℕ, Bool, if◌then◌else◌, OnOk};
ghost use Rattle.std.specs.BTreeSet as set;
ghost use Rattle.std.specs.Ordering.{nat_cmp};
ghost use Rattle.ds_model.specs.Logs as model;
ghost use Rattle.ds_model.specs.Logs.{has_commit};
ghost use Rattle.opening_rows.specs.Rows.{counts, IsAdded, IsMade};

use ds_base::{NoMemory, Value};
use ds_model::{Body, LogRecord, RowChange};
use spot_map::SpotMap;
use std::alloc::Global;
use std::collections::BTreeSet;

/// What was made of the records so far.
#[derive(Drop)]
pub struct Made {
    /// The rows.
    pub rows: SpotMap<Value>,
    /// The pending transactions of which a Commit record was met.
    pub found: BTreeSet<u128>,
}

/// No record was read yet.
pub fn nothing(alloc: Global) -> Made
    ensures { (pending committed : ℕ → Bool) → IsMade pending committed [] result }
{
    Made {
        rows: SpotMap::new(alloc),
        found: BTreeSet::new(alloc),
    }
}

fn put(rows: &mut SpotMap<Value>, change: &RowChange) -> Result<(), NoMemory>
    ensures { OnOk result (rows.new ≡ model.set_row rows.old change.now.table change.now.key change.now.after) }
{
    match change.after {
        None => {
            rows.remove(change.table, change.key);
            Ok(())
        }
        Some(value) => rows.insert(change.table, change.key, value),
    }
}

// Does the row change of a record, if it is one.
fn apply(rows: &mut SpotMap<Value>, it: &LogRecord) -> Result<(), NoMemory>
    ensures { OnOk result (rows.new ≡ model.after_body rows.old it.now.body) }
{
    match &it.body {
        Body::RowChange { change } => put(rows, change),
        _ => Ok(()),
    }
}

// The same where the row changes of its transaction count.
fn apply_of(
    rows: &mut SpotMap<Value>,
    pending: &BTreeSet<u128>,
    committed: &BTreeSet<u128>,
    it: &LogRecord,
) -> Result<(), NoMemory>
    ensures { OnOk result (rows.new ≡ (if counts (set.contains nat_cmp pending.now) (set.contains nat_cmp committed.now) it.now.tran then model.after_body rows.old it.now.body else rows.old)) }
{
    let tran = it.tran.number();
    if !pending.contains(&tran) || committed.contains(&tran) {
        apply(rows, it)
    } else {
        Ok(())
    }
}

// Adds the transaction of a Commit record, if it is a pending one.
fn find(
    found: &mut BTreeSet<u128>,
    pending: &BTreeSet<u128>,
    it: &LogRecord,
) -> Result<(), NoMemory>
    ensures { OnOk result ((tran : ℕ) → set.contains nat_cmp found.new tran ≡ (set.contains nat_cmp found.old tran || (set.contains nat_cmp pending.now tran && has_commit (it.now ∷ []) tran))) }
{
    match it.body {
        Body::Commit if pending.contains(&it.tran.number()) => {
            found.insert(it.tran.number())?;
            Ok(())
        }
        _ => Ok(()),
    }
}

/// Takes one record more. Of the transactions that were pending when the logs were surveyed, these have committed all the same.
pub fn take_in(
    made: &mut Made,
    pending: &BTreeSet<u128>,
    committed: &BTreeSet<u128>,
    it: &LogRecord,
) -> Result<(), NoMemory>
    ensures { OnOk result (IsAdded (set.contains nat_cmp pending.now) (set.contains nat_cmp committed.now) made.old made.new it.now) }
{
    find(&mut made.found, pending, it)?;
    apply_of(&mut made.rows, pending, committed, it)
}
