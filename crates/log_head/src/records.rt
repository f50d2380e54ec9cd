//! The whole records of bytes, in the order in which they stand there.

ghost use Rattle.std.specs.Prelude.{◌≡◌, ℕ, ◌+◌, ◌-◌, ◌<◌, ◌≤◌, ◌^◌, [], length, drop, Ok, IfOk, IfSome, IfNone};
ghost use Rattle.log_record.specs.Given.{LogRecord};
ghost use Rattle.log_record.specs.Reading.{record_in};
ghost use Rattle.log_head.specs.Heads.{Stops, AreRead};

use ds_base::NoMemory;
use log_record::{LogRecord, RecordFault, read_record};
use std::alloc::Global;
use std::collections::VecDeque;

/// The most bytes of a record.
const LONGEST: usize = 16_384;

// The record that stands at this place of the bytes, and its length, or nothing where none does.
fn record_at(
    alloc: Global,
    bytes: &[u8],
    from: usize,
) -> Result<Option<(LogRecord, usize)>, NoMemory>
    requires { from ≤ length bytes.now }
    ensures found { IfOk result (λ next. IfSome next (λ found. record_in (drop from bytes.now) ≡ Ok found)) }
    ensures within { IfOk result (λ next. IfSome next (λ found. (1 ≤ found.1) × (found.1 ≤ length bytes.now - from))) }
    ensures none { IfOk result (λ next. IfNone next ((found : LogRecord × ℕ) → record_in (drop from bytes.now) ≡ Ok found → ⊥)) }
{
    match read_record(alloc, &bytes[from..]) {
        Ok(found) => Ok(Some(found)),
        Err(RecordFault::NotWhole) => Ok(None),
        Err(RecordFault::Bad { .. }) => Ok(None),
        Err(RecordFault::NoMemory) => Err(NoMemory),
    }
}

// The field so many bytes behind this byte of a log. No log is so long that a number of 64 bits doesn't hold it.
fn field_behind(at: u64, field: usize) -> Result<u64, NoMemory>
    ensures { IfOk result (λ bad. bad ≡ at + field) }
{
    match at.checked_add(field as u64) {
        Some(bad) => Ok(bad),
        None => Err(NoMemory),
    }
}

// Where the log has a field that isn't allowed, if what begins at this byte of it, and is no whole record, has one.
fn bad_field(alloc: Global, bytes: &[u8], at: u64) -> Result<Option<u64>, NoMemory>
    requires { (found : LogRecord × ℕ) → record_in bytes.now ≡ Ok found → ⊥ }
    ensures { IfOk result (λ bad. Stops (record_in bytes.now) (length bytes.now) at bad) }
{
    match read_record(alloc, bytes) {
        Ok(_) => unreachable!(),
        // No record is longer.
        Err(RecordFault::NotWhole) if LONGEST < bytes.len() => Err(NoMemory),
        Err(RecordFault::NotWhole) => Ok(None),
        Err(RecordFault::Bad { at: field }) => Ok(Some(field_behind(at, field)?)),
        Err(RecordFault::NoMemory) => Err(NoMemory),
    }
}

/// Reads the whole records at the front of bytes that begin at this byte of a log, each with its length. Where a field
/// behind them isn't allowed, it answers at which byte of the log that begins.
pub fn read_records(
    alloc: Global,
    bytes: &[u8],
    at: u64,
    into: &mut VecDeque<(LogRecord, usize)>,
) -> Result<Option<u64>, NoMemory>
    requires empty { into.old.items ≡ [] }
    requires within { at + length bytes.now < 2 ^ 64 }
    ensures { IfOk result (λ bad. AreRead bytes.now at into.new.items bad) }
{
    let mut from = 0;
    while let Some((record, length)) = record_at(alloc, bytes, from)? {
        into.push_back((record, length))?;
        from += length;
    }
    let bad = bad_field(alloc, &bytes[from..], at + from as u64)?;
    Ok(bad)
}
