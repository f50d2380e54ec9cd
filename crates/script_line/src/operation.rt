//! The lines of operations.

ghost use Rattle.std.specs.Prelude.{◌≡◌, ℕ};
ghost use Rattle.ds_model.specs.declared.script.Op.{Op};
ghost use Rattle.ds_model.specs.declared.script.Op.TheVariants as op;
ghost use Rattle.script_line.specs.Lines as spec;
ghost use Rattle.script_line.specs.Words.{words_of, mapped};

use crate::values::{flag_in, key_in, table_in, value_in};
use crate::words::{next_word, one_word, three_words, two_words};
use ds_base::{Key, TableId};
use ds_model::{FaultKind, Op};
use std::alloc::Global;

// A table and a key.
fn spot(rest: &[u8]) -> Result<(TableId, Key), FaultKind>
    ensures { (make : ℕ → ℕ → Op) → spec.spot_op make (words_of rest.now) ≡ mapped (λ found. make found.0 found.1) result }
{
    let Some((table, key)) = two_words(rest) else {
        return Err(FaultKind::Word);
    };
    let table = table_in(table)?;
    let key = key_in(key)?;
    Ok((table, key))
}

fn get_op(rest: &[u8]) -> Result<Op, FaultKind>
    ensures { result ≡ spec.spot_op op.Get (words_of rest.now) }
{
    let (table, key) = spot(rest)?;
    Ok(Op::Get { table, key })
}

fn getu_op(rest: &[u8]) -> Result<Op, FaultKind>
    ensures { result ≡ spec.spot_op op.Getu (words_of rest.now) }
{
    let (table, key) = spot(rest)?;
    Ok(Op::Getu { table, key })
}

fn del_op(rest: &[u8]) -> Result<Op, FaultKind>
    ensures { result ≡ spec.spot_op op.Del (words_of rest.now) }
{
    let (table, key) = spot(rest)?;
    Ok(Op::Del { table, key })
}

fn put_op(alloc: Global, rest: &[u8]) -> Result<Op, FaultKind>
    ensures { result ≡ spec.put_op (words_of rest.now) }
{
    let Some((table, key, value)) = three_words(rest) else {
        return Err(FaultKind::Word);
    };
    let table = table_in(table)?;
    let key = key_in(key)?;
    let value = value_in(alloc, value)?;
    Ok(Op::Put { table, key, value })
}

fn scan_op(rest: &[u8]) -> Result<Op, FaultKind>
    ensures { result ≡ spec.scan_op (words_of rest.now) }
{
    let Some((table, low, high)) = three_words(rest) else {
        return Err(FaultKind::Word);
    };
    let table = table_in(table)?;
    let low = key_in(low)?;
    let high = key_in(high)?;
    Ok(Op::Scan { table, low, high })
}

fn flag(rest: &[u8]) -> Result<u8, FaultKind>
    ensures { (make : ℕ → Op) → spec.flag_op make (words_of rest.now) ≡ mapped make result }
{
    match one_word(rest) {
        Some(word) => flag_in(word),
        None => Err(FaultKind::Word),
    }
}

fn raise_op(rest: &[u8]) -> Result<Op, FaultKind>
    ensures { result ≡ spec.flag_op op.Raise (words_of rest.now) }
{
    let flag = flag(rest)?;
    Ok(Op::Raise { flag })
}

fn await_op(rest: &[u8]) -> Result<Op, FaultKind>
    ensures { result ≡ spec.flag_op op.Await (words_of rest.now) }
{
    let flag = flag(rest)?;
    Ok(Op::Await { flag })
}

fn bare_op(op: Op, rest: &[u8]) -> Result<Op, FaultKind>
    ensures { result ≡ spec.bare_op op (words_of rest.now) }
{
    match next_word(rest) {
        Some(_) => Err(FaultKind::Word),
        None => Ok(op),
    }
}

/// The operation of a line with this first word, which is one of an operation, and with this behind it.
pub fn op_line(alloc: Global, first: &[u8], rest: &[u8]) -> Result<Op, FaultKind>
    ensures { result ≡ spec.op_line first.now (words_of rest.now) }
{
    if first == b"get".as_slice() {
        get_op(rest)
    } else if first == b"getu".as_slice() {
        getu_op(rest)
    } else if first == b"put".as_slice() {
        put_op(alloc, rest)
    } else if first == b"del".as_slice() {
        del_op(rest)
    } else if first == b"scan".as_slice() {
        scan_op(rest)
    } else if first == b"raise".as_slice() {
        raise_op(rest)
    } else if first == b"await".as_slice() {
        await_op(rest)
    } else if first == b"losecache".as_slice() {
        bare_op(Op::LoseCache, rest)
    } else {
        bare_op(Op::Abort, rest)
    }
}
