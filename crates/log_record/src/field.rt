//! The fields of log records. Each is read at an offset of the record without its last 4 bytes, and answers the offset
//! behind it.

ghost use Rattle.std.specs.Prelude.{◌≡◌, ◌+◌, ◌≤◌, length, OnOk, IfOk};
ghost use Rattle.log_record.specs.Fields.{bytes_at, kind_at, version_at, lrsn_at, tran_at, offset_at, table_at, key_at, page_at, slot_at, place_at};
ghost use Rattle.log_record.specs.Reading.{Gives};

use crate::fault::RecordFault;
use crate::kind::Kind;
use crate::layout::SLOTS;
use crate::version::{number_in, version_of_number, width_of};
use byteorder::{BigEndian, ByteOrder};
use ds_base::{Key, Lrsn, Place, TableId};
use ds_model::Version;

/// So many bytes from this offset on.
pub fn bytes_at(fields: &[u8], at: usize, width: usize) -> Result<&[u8], RecordFault>
    ensures exact { Gives (λ bytes. bytes.now) result (bytes_at width fields.now at) }
    ensures whole { IfOk result (λ bytes. length bytes.now ≡ width) }
    ensures within { OnOk result (at + width ≤ length fields.now) }
{
    if fields.len() < at || fields.len() - at < width {
        return Err(RecordFault::Bad { at });
    }
    Ok(&fields[at..at + width])
}

#[tactic(auto, unfolding(crate::specs::Fields::field_at))]
pub fn kind_at(fields: &[u8], at: usize) -> Result<(Kind, usize), RecordFault>
    ensures { result ≡ kind_at fields.now at }
{
    let bytes = bytes_at(fields, at, 1)?;
    match Kind::of_number(bytes[0]) {
        Some(kind) => Ok((kind, at + 1)),
        None => Err(RecordFault::Bad { at }),
    }
}

#[tactic(auto, unfolding(crate::specs::Fields::field_at))]
pub fn version_at(fields: &[u8], at: usize) -> Result<(Version, usize), RecordFault>
    ensures { result ≡ version_at fields.now at }
{
    let bytes = bytes_at(fields, at, 1)?;
    match version_of_number(bytes[0]) {
        Some(version) => Ok((version, at + 1)),
        None => Err(RecordFault::Bad { at }),
    }
}

#[tactic(auto, unfolding(crate::specs::Fields::field_at))]
pub fn lrsn_at(version: Version, fields: &[u8], at: usize) -> Result<(Lrsn, usize), RecordFault>
    ensures { result ≡ lrsn_at version fields.now at }
{
    let width = width_of(version);
    let bytes = bytes_at(fields, at, width)?;
    let Some(lrsn) = Lrsn::new(number_in(version, bytes)) else {
        unreachable!()
    };
    Ok((lrsn, at + width))
}

/// The transaction of a record of the version and the kind.
#[tactic(auto, unfolding(crate::specs::Fields::field_at))]
pub fn tran_at(
    version: Version,
    kind: Kind,
    fields: &[u8],
    at: usize,
) -> Result<(Lrsn, usize), RecordFault>
    ensures { result ≡ tran_at version kind fields.now at }
{
    let (tran, next) = lrsn_at(version, fields, at)?;
    if kind.has_tran() == (tran.number() != 0) {
        Ok((tran, next))
    } else {
        Err(RecordFault::Bad { at })
    }
}

/// An offset of a log.
#[tactic(auto, unfolding(crate::specs::Fields::field_at))]
pub fn offset_at(fields: &[u8], at: usize) -> Result<(u64, usize), RecordFault>
    ensures { result ≡ offset_at fields.now at }
{
    let bytes = bytes_at(fields, at, 8)?;
    Ok((BigEndian::read_u64(bytes), at + 8))
}

#[tactic(auto, unfolding(crate::specs::Fields::field_at))]
pub fn table_at(fields: &[u8], at: usize) -> Result<(TableId, usize), RecordFault>
    ensures { result ≡ table_at fields.now at }
{
    let bytes = bytes_at(fields, at, 1)?;
    match TableId::new(bytes[0] as u64) {
        Some(table) => Ok((table, at + 1)),
        None => Err(RecordFault::Bad { at }),
    }
}

#[tactic(auto, unfolding(crate::specs::Fields::field_at))]
pub fn key_at(fields: &[u8], at: usize) -> Result<(Key, usize), RecordFault>
    ensures { result ≡ key_at fields.now at }
{
    let bytes = bytes_at(fields, at, 8)?;
    Ok((BigEndian::read_u64(bytes), at + 8))
}

#[tactic(auto, unfolding(crate::specs::Fields::field_at))]
fn page_at(fields: &[u8], at: usize) -> Result<(u32, usize), RecordFault>
    ensures { result ≡ page_at fields.now at }
{
    let page = BigEndian::read_u32(bytes_at(fields, at, 4)?);
    if page == 0 {
        Err(RecordFault::Bad { at })
    } else {
        Ok((page, at + 4))
    }
}

#[tactic(auto, unfolding(crate::specs::Fields::field_at))]
fn slot_at(fields: &[u8], at: usize) -> Result<(u16, usize), RecordFault>
    ensures { result ≡ slot_at fields.now at }
{
    let slot = BigEndian::read_u16(bytes_at(fields, at, 2)?);
    if slot < SLOTS {
        Ok((slot, at + 2))
    } else {
        Err(RecordFault::Bad { at })
    }
}

#[tactic(auto, unfolding(crate::specs::Fields::place_at))]
pub fn place_at(fields: &[u8], at: usize) -> Result<(Place, usize), RecordFault>
    ensures { result ≡ place_at fields.now at }
{
    let (page, at) = page_at(fields, at)?;
    let (slot, at) = slot_at(fields, at)?;
    Ok((Place { page, slot }, at))
}
