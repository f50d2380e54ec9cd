//! Whether what was read is the same.

ghost use Rattle.std.specs.Prelude.{◌≡◌, Decides};

use ds_base::{Row, Value};
use ds_model::Answer;

fn same_row(a: &Row, b: &Row) -> bool
    ensures { Decides result (a.now ≡ b.now) }
{
    a.table == b.table && a.key == b.key && a.value.bytes() == b.value.bytes()
}

/// Whether the rows are the same, in one order.
pub fn same_rows(a: &[Row], b: &[Row]) -> bool
    ensures { Decides result (a.now ≡ b.now) }
{
    if a.len() != b.len() {
        return false;
    }
    for i in 0..a.len() {
        if !same_row(&a[i], &b[i]) {
            return false;
        }
    }
    true
}

/// Whether both are the same value, or none.
pub fn same_value(a: &Option<Value>, b: &Option<Value>) -> bool
    ensures { Decides result (a.now ≡ b.now) }
{
    match (a, b) {
        (None, None) => true,
        (Some(a), Some(b)) => a.bytes() == b.bytes(),
        _ => false,
    }
}

fn same_answer(a: &Answer, b: &Answer) -> bool
    ensures { Decides result (a.now ≡ b.now) }
{
    match (a, b) {
        (Answer::Value(a), Answer::Value(b)) => same_value(a, b),
        (Answer::Rows(a), Answer::Rows(b)) => same_rows(a.as_slice(), b.as_slice()),
        _ => false,
    }
}

/// Whether the same was read, in one order.
pub fn same_reads(a: &[Answer], b: &[Answer]) -> bool
    ensures { Decides result (a.now ≡ b.now) }
{
    if a.len() != b.len() {
        return false;
    }
    for i in 0..a.len() {
        if !same_answer(&a[i], &b[i]) {
            return false;
        }
    }
    true
}
