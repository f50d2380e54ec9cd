//! What operations and log records make of rows.

ghost use Rattle.std.specs.Prelude.{◌≡◌, true, map, OnOk, IfOk, Decides};
ghost use Rattle.std.specs.List.{AllByRecursion};
ghost use Rattle.ds_model.specs.Effect.{after_tran};
ghost use Rattle.ds_model.specs.Logs.{after_records};
ghost use Rattle.report_check.specs.Effects.{AgreeAt, AgreeAtOp, AgreeAtRecord};

use crate::rows::apply;
use ds_base::{Key, NoMemory, TableId, Value};
use ds_model::{Body, LogRecord, Op};
use spot_map::SpotMap;
use std::alloc::Global;
use tran_history::{replay_tran, same_value};

fn agree_at(a: &SpotMap<Value>, b: &SpotMap<Value>, table: TableId, key: Key) -> bool
    ensures { Decides result (AgreeAt a.now b.now table key) }
{
    same_value(&a.get(table, key), &b.get(table, key))
}

fn agree_at_op(a: &SpotMap<Value>, b: &SpotMap<Value>, op: &Op) -> bool
    ensures { Decides result (AgreeAtOp a.now b.now op.now) }
{
    match *op {
        Op::Put { table, key, .. } => agree_at(a, b, table, key),
        Op::Del { table, key } => agree_at(a, b, table, key),
        _ => true,
    }
}

fn agree_at_ops(a: &SpotMap<Value>, b: &SpotMap<Value>, ops: &[Op]) -> bool
    ensures { Decides result (AllByRecursion (AgreeAtOp a.now b.now) ops.now) }
{
    for op in ops {
        if !agree_at_op(a, b, op) {
            return false;
        }
    }
    true
}

fn agree_at_record(a: &SpotMap<Value>, b: &SpotMap<Value>, item: &LogRecord) -> bool
    ensures { Decides result (AgreeAtRecord a.now b.now item.now) }
{
    match &item.body {
        Body::RowChange { change } => agree_at(a, b, change.table, change.key),
        _ => true,
    }
}

fn agree_at_records(a: &SpotMap<Value>, b: &SpotMap<Value>, items: &[&LogRecord]) -> bool
    ensures { Decides result (AllByRecursion (λ r. AgreeAtRecord a.now b.now r.now) items.now) }
{
    for item in items {
        if !agree_at_record(a, b, item) {
            return false;
        }
    }
    true
}

fn apply_all(rows: &mut SpotMap<Value>, items: &[&LogRecord]) -> Result<(), NoMemory>
    ensures { OnOk result (rows.new ≡ after_records rows.old (map (λ r. r.now) items.now)) }
{
    for item in items {
        apply(rows, item)?;
    }
    Ok(())
}

/// Gives one of two equal maps the effect of a transaction's operations, and the other that of its log records. Tells whether
/// they are equal again.
pub fn have_one_effect(
    alloc: Global,
    rows: &mut SpotMap<Value>,
    logged: &mut SpotMap<Value>,
    ops: &[Op],
    items: &[&LogRecord],
) -> Result<bool, NoMemory>
    requires { logged.old ≡ rows.old }
    ensures rows { OnOk result (rows.new ≡ after_tran rows.old ops.now) }
    ensures same { IfOk result (λ same. Decides same (after_records rows.old (map (λ r. r.now) items.now) ≡ after_tran rows.old ops.now)) }
    ensures logged { IfOk result (λ same. same ≡ true → logged.new ≡ rows.new) }
{
    replay_tran(alloc, rows, ops)?;
    apply_all(logged, items)?;
    Ok(agree_at_ops(rows, logged, ops) && agree_at_records(rows, logged, items))
}
