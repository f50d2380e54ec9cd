ghost use Rattle.std.specs.Prelude.{◌≡◌, ◌≤◌, ◌<◌, ℕ, List, ◌++◌, length, take, slice_index, IfOk};
ghost use Rattle.ds_model.specs.declared.log.LogRecord.{LogRecord};
ghost use Rattle.ds_model.specs.RecordBytes.{IsAllowed, record_bytes};
ghost use Rattle.log_record.specs.Fields.{change_at, compensation_at, body_at};
ghost use Rattle.log_record.specs.declared.fault.RecordFault.TheVariants.{NotWhole, NoMemory};
ghost use Rattle.log_record.specs.declared.kind.Kind.TheVariants as kinds;
ghost use Rattle.log_record.specs.Reading.{Answers, HasPatches, Found, fields_in, ends_at, whole_in, record_in};

use crate::fault::RecordFault;
use crate::field::{key_at, kind_at, lrsn_at, offset_at, place_at, table_at, tran_at, version_at};
use crate::kind::Kind;
use crate::layout::{LONGEST, SHORTEST};
use crate::patch::patches_at;
use crate::state::state_at;
use byteorder::{BigEndian, ByteOrder};
use ds_model::{Body, LogRecord, RowChange, Version};
use std::alloc::Global;

/// Where the kind stands, behind the length.
const KIND_AT: usize = 4;

#[tactic(auto, unfolding(crate::specs::Fields::change_at))]
fn change_at(alloc: Global, fields: &[u8], at: usize) -> Result<(RowChange, usize), RecordFault>
    ensures { result ≡ change_at fields.now at }
{
    let (table, at) = table_at(fields, at)?;
    let (key, at) = key_at(fields, at)?;
    let (place, at) = place_at(fields, at)?;
    let (before, at) = state_at(alloc, fields, at)?;
    let (after, at) = state_at(alloc, fields, at)?;
    let change = RowChange {
        table,
        key,
        place,
        before,
        after,
    };
    Ok((change, at))
}

#[tactic(auto, unfolding(crate::specs::Fields::compensation_at))]
fn compensation_at(
    alloc: Global,
    version: Version,
    fields: &[u8],
    at: usize,
) -> Result<(Body, usize), RecordFault>
    ensures { result ≡ compensation_at version fields.now at }
{
    let (change, at) = change_at(alloc, fields, at)?;
    let (undone, at) = lrsn_at(version, fields, at)?;
    Ok((Body::Compensation { change, undone }, at))
}

#[tactic(auto, using(crate::proofs::Memory::field_free, crate::proofs::Memory::change_free, crate::proofs::Memory::compensation_free), unfolding(crate::specs::Fields::body_at))]
fn body_at(
    alloc: Global,
    version: Version,
    kind: Kind,
    fields: &[u8],
    at: usize,
) -> Result<(Body, usize), RecordFault>
    ensures exact { Answers result (body_at version kind fields.now at) }
    ensures memory { result ≡ Err NoMemory → kind ≡ kinds.System }
{
    match kind {
        Kind::RowChange => {
            let (change, at) = change_at(alloc, fields, at)?;
            Ok((Body::RowChange { change }, at))
        }
        Kind::Compensation => compensation_at(alloc, version, fields, at),
        Kind::System => {
            let (patches, at) = patches_at(alloc, fields, at)?;
            Ok((Body::System { patches }, at))
        }
        Kind::Commit => Ok((Body::Commit, at)),
        Kind::Ended => Ok((Body::Ended, at)),
        Kind::Checkpoint => {
            let (offset, at) = offset_at(fields, at)?;
            Ok((Body::Checkpoint { offset }, at))
        }
        Kind::RestartEnd => Ok((Body::RestartEnd, at)),
    }
}

// The fields from the kind to the body, and the offset behind them.
#[tactic(auto, using(crate::proofs::Memory::field_free), unfolding(crate::specs::Reading::fields_in))]
fn fields_in(alloc: Global, fields: &[u8]) -> Result<(LogRecord, usize), RecordFault>
    ensures exact { Answers result (fields_in fields.now) }
    ensures memory { result ≡ Err NoMemory → slice_index fields.now 4 ≡ 3 }
{
    let (kind, at) = kind_at(fields, KIND_AT)?;
    let (version, at) = version_at(fields, at)?;
    let (lrsn, at) = lrsn_at(version, fields, at)?;
    let (tran, at) = tran_at(version, kind, fields, at)?;
    let (body, at) = body_at(alloc, version, kind, fields, at)?;
    let it = LogRecord {
        version,
        lrsn,
        tran,
        body,
    };
    Ok((it, at))
}

// The record of so many bytes.
#[tactic(auto, unfolding(crate::specs::Reading::whole_in))]
fn whole_in(alloc: Global, bytes: &[u8], size: usize) -> Result<(LogRecord, usize), RecordFault>
    requires room { size ≤ length bytes.now }
    requires length { 4 ≤ size }
    ensures exact { Answers result (whole_in bytes.now size) }
    ensures memory { result ≡ Err NoMemory → slice_index bytes.now 4 ≡ 3 }
{
    let (fields, again) = bytes.split_at(size - 4);
    let (found, at) = fields_in(alloc, fields)?;
    if at == size - 4 && BigEndian::read_u32(again) as usize == size {
        Ok((found, size))
    } else {
        Err(RecordFault::Bad { at })
    }
}

// The record at the front, where the bytes begin with a length that is allowed and go on that far.
#[tactic(auto, unfolding(crate::specs::Reading::record_in))]
fn record_in(alloc: Global, bytes: &[u8]) -> Result<(LogRecord, usize), RecordFault>
    ensures exact { Answers result (record_in bytes.now) }
    ensures memory { result ≡ Err NoMemory → HasPatches bytes.now }
{
    if bytes.len() < 4 {
        return Err(RecordFault::NotWhole);
    }
    let size = BigEndian::read_u32(bytes) as usize;
    if size < SHORTEST || LONGEST < size {
        return Err(RecordFault::Bad { at: 0 });
    }
    if bytes.len() < size {
        return Err(RecordFault::NotWhole);
    }
    whole_in(alloc, bytes, size)
}

/// The log record at the front of the bytes, of either version, and its length. Bytes may follow it.
///
/// `NotWhole` says that the bytes end before the record does. `Bad` names the first byte of the first field that isn't
/// allowed, or that would reach into the repeated length; where the body ends before it, or another length stands
/// there, the first byte behind the body's last field. Only patches of pages take memory.
pub fn read_record(alloc: Global, bytes: &[u8]) -> Result<(LogRecord, usize), RecordFault>
    ensures exact { Answers result (record_in bytes.now) }
    // Only patches take memory.
    ensures memory { result ≡ Err NoMemory → HasPatches bytes.now }
    // What is read is spelled so.
    ensures found { IfOk result (λ found. Found bytes.now found.0 found.1) }
    // What is spelled so is read, whatever follows it.
    ensures again { (r : LogRecord) (rest : List ℕ) → IsAllowed r → bytes.now ≡ record_bytes r ++ rest → Answers result (Ok (r, length (record_bytes r))) }
    // What a stop inside a write leaves of a record is not whole.
    ensures cut { (r : LogRecord) (n : ℕ) → IsAllowed r → n < length (record_bytes r) → bytes.now ≡ take n (record_bytes r) → result ≡ Err NotWhole }
{
    record_in(alloc, bytes)
}
