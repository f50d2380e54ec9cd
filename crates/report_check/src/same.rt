//! Whether transactions are the same.

ghost use Rattle.std.specs.Prelude.{◌≡◌, Decides};
ghost use Rattle.ds_model.specs.declared.script.Op.TheVariants as op;

use ds_base::{Key, TableId, Value};
use ds_model::{Op, Tran};

fn is_get(it: &Op, table: TableId, key: Key) -> bool
    ensures { Decides result (it.now ≡ op.Get table key) }
{
    match *it {
        Op::Get { table: t, key: k } => t == table && k == key,
        _ => false,
    }
}

fn is_getu(it: &Op, table: TableId, key: Key) -> bool
    ensures { Decides result (it.now ≡ op.Getu table key) }
{
    match *it {
        Op::Getu { table: t, key: k } => t == table && k == key,
        _ => false,
    }
}

fn is_put(it: &Op, table: TableId, key: Key, value: &Value) -> bool
    ensures { Decides result (it.now ≡ op.Put table key value.now) }
{
    match it {
        Op::Put {
            table: t,
            key: k,
            value: v,
        } => *t == table && *k == key && v.bytes() == value.bytes(),
        _ => false,
    }
}

fn is_del(it: &Op, table: TableId, key: Key) -> bool
    ensures { Decides result (it.now ≡ op.Del table key) }
{
    match *it {
        Op::Del { table: t, key: k } => t == table && k == key,
        _ => false,
    }
}

fn is_scan(it: &Op, table: TableId, low: Key, high: Key) -> bool
    ensures { Decides result (it.now ≡ op.Scan table low high) }
{
    match *it {
        Op::Scan {
            table: t,
            low: l,
            high: h,
        } => t == table && l == low && h == high,
        _ => false,
    }
}

fn is_raise(it: &Op, flag: u8) -> bool
    ensures { Decides result (it.now ≡ op.Raise flag) }
{
    match *it {
        Op::Raise { flag: f } => f == flag,
        _ => false,
    }
}

fn is_await(it: &Op, flag: u8) -> bool
    ensures { Decides result (it.now ≡ op.Await flag) }
{
    match *it {
        Op::Await { flag: f } => f == flag,
        _ => false,
    }
}

fn is_loss(it: &Op) -> bool
    ensures { Decides result (it.now ≡ op.LoseCache) }
{
    match *it {
        Op::LoseCache => true,
        _ => false,
    }
}

fn is_abort(it: &Op) -> bool
    ensures { Decides result (it.now ≡ op.Abort) }
{
    match *it {
        Op::Abort => true,
        _ => false,
    }
}

fn same_op(a: &Op, b: &Op) -> bool
    ensures { Decides result (a.now ≡ b.now) }
{
    match a {
        Op::Get { table, key } => is_get(b, *table, *key),
        Op::Getu { table, key } => is_getu(b, *table, *key),
        Op::Put { table, key, value } => is_put(b, *table, *key, value),
        Op::Del { table, key } => is_del(b, *table, *key),
        Op::Scan { table, low, high } => is_scan(b, *table, *low, *high),
        Op::Raise { flag } => is_raise(b, *flag),
        Op::Await { flag } => is_await(b, *flag),
        Op::LoseCache => is_loss(b),
        Op::Abort => is_abort(b),
    }
}

fn same_ops(a: &[Op], b: &[Op]) -> bool
    ensures { Decides result (a.now ≡ b.now) }
{
    if a.len() != b.len() {
        return false;
    }
    for i in 0..a.len() {
        if !same_op(&a[i], &b[i]) {
            return false;
        }
    }
    true
}

pub fn same_tran(a: &Tran, b: &Tran) -> bool
    ensures { Decides result (a.now ≡ b.now) }
{
    a.number == b.number
        && a.wait == b.wait
        && a.name.as_slice() == b.name.as_slice()
        && same_ops(a.ops.as_slice(), b.ops.as_slice())
}
