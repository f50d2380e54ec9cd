ghost use Rattle.std.specs.Prelude.{◌≡◌, ◌≤◌, ◌++◌, length, OnOk, IfOk};
ghost use Rattle.ds_model.specs.RecordBytes.{lrsn_bytes};
ghost use Rattle.torn_records.specs.Fronts.{Tells, HasText};
ghost use Rattle.torn_records.specs.Templates.{tran_text, frame_text};

use crate::complete::completes;
use crate::seen::{frame_of, may_begin, version_byte};
use ds_base::{Bytes, NoMemory};
use ds_model::Version;
use std::alloc::Global;

/// Adds the number 0.
pub fn put_number(bytes: &mut Bytes, version: Version) -> Result<(), NoMemory>
    ensures { OnOk result (bytes.new ≡ bytes.old ++ lrsn_bytes version 0) }
{
    match version {
        Version::One => bytes.extend(&[0; 6]),
        Version::Two => bytes.extend(&[0; 10]),
    }
}

// The number 0 of the record, and that of its transaction, which is 1 where there is one.
fn put_numbers(bytes: &mut Bytes, version: Version, has_tran: bool) -> Result<(), NoMemory>
    ensures { OnOk result (bytes.new ≡ bytes.old ++ (lrsn_bytes version 0 ++ lrsn_bytes version (tran_text has_tran))) }
{
    match (version, has_tran) {
        (Version::One, false) => bytes.extend(&[0, 0, 0, 0, 0, 0, 0, 0, 0, 0, 0, 0]),
        (Version::One, true) => bytes.extend(&[0, 0, 0, 0, 0, 0, 0, 0, 0, 0, 0, 1]),
        (Version::Two, false) => bytes.extend(&[0; 20]),
        (Version::Two, true) => {
            bytes.extend(&[0, 0, 0, 0, 0, 0, 0, 0, 0, 0, 0, 0, 0, 0, 0, 0, 0, 0, 0, 1])
        }
    }
}

// The record of the kind and the version with the body, whose numbers are the least that are allowed.
fn framed(
    alloc: Global,
    version: Version,
    kind: u8,
    has_tran: bool,
    text: &[u8],
) -> Result<Bytes, NoMemory>
    requires { length text.now ≤ 1000000 }
    ensures { IfOk result (λ bytes. bytes ≡ frame_text version kind has_tran text.now) }
{
    let size = (frame_of(version) + text.len()) as u32;
    let size = size.to_be_bytes();
    let mut bytes = Bytes::new(alloc);
    bytes.extend(&size)?;
    bytes.extend(&[kind, version_byte(version)])?;
    put_numbers(&mut bytes, version, has_tran)?;
    bytes.extend(text)?;
    bytes.extend(&size)?;
    Ok(bytes)
}

// Whether the bytes are a proper front of such a record, without a look at the bytes that are seen.
fn is_front_of_text(
    alloc: Global,
    bytes: &[u8],
    version: Version,
    kind: u8,
    has_tran: bool,
    text: &[u8],
) -> Result<bool, NoMemory>
    requires { length text.now ≤ 1000000 }
    ensures { Tells bytes.now (HasText version kind has_tran text.now) result }
{
    let template = framed(alloc, version, kind, has_tran, text)?;
    completes(alloc, bytes, template.as_slice())
}

/// Whether the bytes are a proper front of a record of the kind and the version whose body this text fills.
pub fn is_front_with(
    alloc: Global,
    bytes: &[u8],
    version: Version,
    kind: u8,
    has_tran: bool,
    text: &[u8],
) -> Result<bool, NoMemory>
    requires { length text.now ≤ 1000000 }
    ensures { Tells bytes.now (HasText version kind has_tran text.now) result }
{
    let begins = may_begin(bytes, version, kind, text.len());
    if begins {
        is_front_of_text(alloc, bytes, version, kind, has_tran, text)
    } else {
        Ok(false)
    }
}
