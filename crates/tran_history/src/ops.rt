//! The operations of a transaction, done by one thread.

ghost use Rattle.std.specs.Prelude.{◌≡◌, ◌++◌, OnOk, IfOk};
ghost use Rattle.ds_model.specs.Effect.{after_op, after_ops, answer_of, reads_of, aborts, after_tran};
ghost use Rattle.tran_history.specs.Changes.{undone};

use crate::change::{Change, take_back};
use ds_base::{NoMemory, Value};
use ds_model::{Answer, Op, Reads};
use spot_map::SpotMap;
use std::alloc::Global;

// Adds what an operation reads.
fn read(alloc: Global, rows: &SpotMap<Value>, reads: &mut Reads, op: &Op) -> Result<(), NoMemory>
    ensures { OnOk result (reads.new ≡ reads.old ++ answer_of rows.now op.now) }
{
    match *op {
        Op::Get { table, key } | Op::Getu { table, key } => {
            reads.push(Answer::Value(rows.get(table, key)))
        }
        Op::Scan { table, low, high } => {
            reads.push(Answer::Rows(rows.scan(alloc, table, low, high)?))
        }
        _ => Ok(()),
    }
}

// Does what an operation does to rows, and notes what stood there.
fn write(rows: &mut SpotMap<Value>, changes: &mut Vec<Change>, op: &Op) -> Result<(), NoMemory>
    ensures rows { OnOk result (rows.new ≡ after_op rows.old op.now) }
    ensures back { OnOk result (undone rows.new changes.new.items ≡ undone rows.old changes.old.items) }
{
    match *op {
        Op::Put { table, key, value } => {
            let before = rows.get(table, key);
            changes.push(Change { table, key, before })?;
            rows.insert(table, key, value)?;
            Ok(())
        }
        Op::Del { table, key } => {
            let before = rows.get(table, key);
            changes.push(Change { table, key, before })?;
            rows.remove(table, key);
            Ok(())
        }
        _ => Ok(()),
    }
}

fn take_ops(
    alloc: Global,
    rows: &mut SpotMap<Value>,
    reads: &mut Reads,
    changes: &mut Vec<Change>,
    ops: &[Op],
) -> Result<(), NoMemory>
    ensures rows { OnOk result (rows.new ≡ after_ops rows.old ops.now) }
    ensures reads { OnOk result (reads.new ≡ reads.old ++ reads_of rows.old ops.now) }
    ensures back { OnOk result (undone rows.new changes.new.items ≡ undone rows.old changes.old.items) }
{
    for op in ops {
        read(alloc, rows, reads, op)?;
        write(rows, changes, op)?;
    }
    Ok(())
}

/// Whether one of the operations asks for the transaction's rollback.
pub fn has_abort(ops: &[Op]) -> bool
    ensures { result ≡ aborts ops.now }
{
    ops.iter().any(|op| matches!(op, Op::Abort))
}

/// Gives rows the effect of a transaction, and answers what it reads.
pub fn replay_tran(alloc: Global, rows: &mut SpotMap<Value>, ops: &[Op]) -> Result<Reads, NoMemory>
    ensures rows { OnOk result (rows.new ≡ after_tran rows.old ops.now) }
    ensures reads { IfOk result (λ reads. reads ≡ reads_of rows.old ops.now) }
{
    let mut reads = Reads::new(alloc);
    let mut changes = Vec::new(alloc);
    take_ops(alloc, rows, &mut reads, &mut changes, ops)?;
    if has_abort(ops) {
        take_back(rows, changes)?;
    }
    Ok(reads)
}
