//! Whether a row is there, and its value.

ghost use Rattle.std.specs.Prelude.{◌≡◌};
ghost use Rattle.log_record.specs.Fields.{presence_at, count_at, value_at, absent_at, present_at, state_at};

use crate::fault::RecordFault;
use crate::field::bytes_at;
use ds_base::{VALUE_LIMIT, Value};
use std::alloc::Global;

/// The byte of a row that isn't there.
const ABSENT: u8 = 1;

/// The byte of a row that is there.
const PRESENT: u8 = 2;

#[tactic(auto, unfolding(crate::specs::Fields::field_at))]
fn presence_at(fields: &[u8], at: usize) -> Result<(u8, usize), RecordFault>
    ensures { result ≡ presence_at fields.now at }
{
    let presence = bytes_at(fields, at, 1)?[0];
    if presence == ABSENT || presence == PRESENT {
        Ok((presence, at + 1))
    } else {
        Err(RecordFault::Bad { at })
    }
}

// How many bytes a value has, of which the most are given.
#[tactic(auto, unfolding(crate::specs::Fields::field_at))]
fn count_at(fields: &[u8], at: usize, most: usize) -> Result<(usize, usize), RecordFault>
    ensures { result ≡ count_at most fields.now at }
{
    let count = bytes_at(fields, at, 1)?[0] as usize;
    if count <= most {
        Ok((count, at + 1))
    } else {
        Err(RecordFault::Bad { at })
    }
}

#[tactic(auto, unfolding(crate::specs::Fields::field_at))]
fn value_at(
    alloc: Global,
    fields: &[u8],
    at: usize,
    count: usize,
) -> Result<(Value, usize), RecordFault>
    ensures { result ≡ value_at count fields.now at }
{
    let bytes = bytes_at(fields, at, count)?;
    match Value::new(alloc, bytes)? {
        Some(value) => Ok((value, at + count)),
        None => Err(RecordFault::Bad { at }),
    }
}

#[tactic(auto, unfolding(crate::specs::Fields::absent_at))]
fn absent_at(fields: &[u8], at: usize) -> Result<(Option<Value>, usize), RecordFault>
    ensures { result ≡ absent_at fields.now at }
{
    let (_, at) = count_at(fields, at, 0)?;
    Ok((None, at))
}

#[tactic(auto, unfolding(crate::specs::Fields::present_at))]
fn present_at(
    alloc: Global,
    fields: &[u8],
    at: usize,
) -> Result<(Option<Value>, usize), RecordFault>
    ensures { result ≡ present_at fields.now at }
{
    let (count, at) = count_at(fields, at, VALUE_LIMIT)?;
    let (value, at) = value_at(alloc, fields, at, count)?;
    Ok((Some(value), at))
}

#[tactic(auto, unfolding(crate::specs::Fields::state_at))]
pub fn state_at(
    alloc: Global,
    fields: &[u8],
    at: usize,
) -> Result<(Option<Value>, usize), RecordFault>
    ensures { result ≡ state_at fields.now at }
{
    let (presence, at) = presence_at(fields, at)?;
    if presence == ABSENT {
        absent_at(fields, at)
    } else {
        present_at(alloc, fields, at)
    }
}
