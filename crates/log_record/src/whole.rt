//! The records of a log's bytes.

ghost use Rattle.std.specs.Prelude.{◌≡◌, ℕ, ◌+◌, ◌-◌, ◌≤◌, length, take, drop, IfOk, IfSome, IfNone, IsErrOf};
ghost use Rattle.std.specs.List.{AllByRecursion};
ghost use Rattle.ds_model.specs.RecordBytes.{log_bytes, IsAllowed};
ghost use Rattle.log_record.specs.Reading.{Found, record_in};
ghost use Rattle.log_record.specs.Logs.{parts_in};
ghost use Rattle.log_record.specs.declared.fault.RecordFault.TheVariants.{NotWhole, Bad};

use crate::fault::RecordFault;
use crate::laws::reading_laws;
use crate::read::read_record;
use ds_model::{LogRecord, RecordList};
use std::alloc::Global;

// The record that begins at this byte, and its length, or nothing where what is left is no whole record.
fn record_at(
    alloc: Global,
    bytes: &[u8],
    at: usize,
) -> Result<Option<(LogRecord, usize)>, RecordFault>
    requires { at ≤ length bytes.now }
    ensures found { IfOk result (λ next. IfSome next (λ found. Found (drop at bytes.now) found.0 found.1)) }
    ensures tail { IfOk result (λ next. IfNone next (record_in (drop at bytes.now) ≡ Err NotWhole)) }
    ensures bad { (n : ℕ) → IsErrOf result (Bad n) → (at ≤ n) × (record_in (drop at bytes.now) ≡ Err (Bad (n - at))) }
    ensures never { IsErrOf result NotWhole → ⊥ }
{
    match read_record(alloc, &bytes[at..]) {
        Ok(found) => Ok(Some(found)),
        Err(RecordFault::NotWhole) => Ok(None),
        Err(RecordFault::Bad { at: field }) => Err(bad_behind(at, field)),
        Err(RecordFault::NoMemory) => Err(RecordFault::NoMemory),
    }
}

// The bad field so many bytes behind a record's first. No record is so long that a number of 64 bits doesn't hold it.
fn bad_behind(at: usize, field: usize) -> RecordFault
    ensures bad { (n : ℕ) → result ≡ Bad n → n ≡ at + field }
    ensures never { result ≡ NotWhole → ⊥ }
{
    match at.checked_add(field) {
        Some(at) => RecordFault::Bad { at },
        None => RecordFault::NoMemory,
    }
}

/// The whole records of a log's bytes, and how many bytes they have. What follows them is the tail.
///
/// `Bad` names the byte of the log where the first field begins that isn't allowed.
pub fn records_in(alloc: Global, bytes: &[u8]) -> Result<(RecordList, usize), RecordFault>
    ensures read { IfOk result (λ read. parts_in bytes.now ≡ Ok (record { records = read.0; size = read.1; tail = length bytes.now - read.1 })) }
    ensures within { IfOk result (λ read. read.1 ≤ length bytes.now) }
    ensures spelled { IfOk result (λ read. take read.1 bytes.now ≡ log_bytes read.0) }
    ensures allowed { IfOk result (λ read. AllByRecursion IsAllowed read.0) }
    ensures bad { (n : ℕ) → IsErrOf result (Bad n) → parts_in bytes.now ≡ Err n }
    ensures never { IsErrOf result NotWhole → ⊥ }
{
    reading_laws();
    let mut records = RecordList::new(alloc);
    let mut at = 0;
    while let Some((found, length)) = record_at(alloc, bytes, at)? {
        records.push(found)?;
        at += length;
    }
    Ok((records, at))
}
