//! The reads of a transaction with what was asked.

ghost use Rattle.std.specs.Prelude.{◌≡◌, List, [], ◌∷◌, ◌++◌, option_to_list, IfOk};
ghost use Rattle.ds_model.specs.declared.script.Op.{Op as AnyOp};
ghost use Rattle.ds_model.specs.declared.script.Op.TheVariants as op;
ghost use Rattle.ds_model.specs.Told.{told_reads};

use ds_base::{Key, NoMemory, TableId};
use ds_model::{Answer, Op, Reads, ToldRead, ToldReads};
use std::alloc::Global;
use std::collections::VecDeque;

// What is told of the answer to a get or getu, if it can be one.
fn told_get(table: TableId, key: Key, answer: Answer) -> Option<ToldRead>
    ensures get { option_to_list result ≡ told_reads (op.Get table key ∷ []) (answer ∷ []) }
    ensures getu { option_to_list result ≡ told_reads (op.Getu table key ∷ []) (answer ∷ []) }
{
    match &answer {
        Answer::Value(value) => Some(ToldRead::Get {
            table,
            key,
            value: *value,
        }),
        Answer::Rows(_) => None,
    }
}

// What is told of the answer to a scan, if it can be one.
fn told_scan(table: TableId, low: Key, high: Key, answer: Answer) -> Option<ToldRead>
    ensures { option_to_list result ≡ told_reads (op.Scan table low high ∷ []) (answer ∷ []) }
{
    match answer {
        Answer::Value(_) => None,
        Answer::Rows(rows) => Some(ToldRead::Scan {
            table,
            low,
            high,
            rows,
        }),
    }
}

// Takes the answer to an operation off the front, if it has one, and makes what is told of it.
#[tactic(auto, using(crate::proofs::Answering::none_told))]
fn next_read(answers: &mut VecDeque<Answer>, op: &Op) -> Option<ToldRead>
    ensures { (ops : List AnyOp) → option_to_list result ++ told_reads ops answers.new.items ≡ told_reads (op.now ∷ ops) answers.old.items }
{
    match *op {
        Op::Get { table, key } | Op::Getu { table, key } => {
            told_get(table, key, answers.pop_front()?)
        }
        Op::Scan { table, low, high } => told_scan(table, low, high, answers.pop_front()?),
        _ => None,
    }
}

/// The answers of a transaction, each behind what was asked.
pub fn tell_reads(alloc: Global, ops: &[Op], reads: Reads) -> Result<ToldReads, NoMemory>
    ensures { IfOk result (λ told. told ≡ told_reads ops.now reads) }
{
    let mut told = ToldReads::new(alloc);
    let mut answers = VecDeque::from(reads.into_vec());
    for op in ops {
        if let Some(read) = next_read(&mut answers, op) {
            told.push(read)?;
        }
    }
    Ok(told)
}
