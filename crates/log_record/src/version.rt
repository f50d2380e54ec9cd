//! The versions of records: how wide their numbers (LRSNs) are.

ghost use Rattle.std.specs.Prelude.{◌≡◌, ◌≤◌, ◌^◌, length};
ghost use Rattle.byteorder.specs.Endian.{big_number};
ghost use Rattle.ds_base.specs.Ids.{IsLrsn, lrsn_width, old_lrsn_width};
ghost use Rattle.ds_model.specs.RecordBytes.{width_of, frame_of};
ghost use Rattle.log_record.specs.Fields.{version_of_number};

use ds_base::{LRSN_END, LRSN_WIDTH, OLD_LRSN_WIDTH};
use ds_model::Version;

/// The version of this number.
pub fn version_of_number(number: u8) -> Option<Version>
    ensures { result ≡ version_of_number number }
{
    match number {
        1 => Some(Version::One),
        2 => Some(Version::Two),
        _ => None,
    }
}

/// How many bytes a number has in a record of the version.
pub fn width_of(version: Version) -> usize
    ensures value { result ≡ width_of version }
    ensures range { (6 ≤ result) × (result ≤ 10) }
{
    match version {
        Version::One => OLD_LRSN_WIDTH as usize,
        Version::Two => LRSN_WIDTH as usize,
    }
}

/// How many bytes a record of the version has without its body.
pub fn frame_of(version: Version) -> usize
    ensures value { result ≡ frame_of version }
    ensures small { result ≤ 30 }
{
    10 + 2 * width_of(version)
}

/// The least number that no record of the version has.
pub fn end_of(version: Version) -> u128
    ensures { result ≡ 256 ^ width_of version }
{
    match version {
        Version::One => 1 << (8 * OLD_LRSN_WIDTH),
        Version::Two => LRSN_END,
    }
}

fn old_number(b: &[u8]) -> u128
    requires { length b.now ≡ old_lrsn_width }
    ensures value { result ≡ big_number old_lrsn_width b.now }
    ensures range { IsLrsn result }
{
    u64::from_be_bytes([0, 0, b[0], b[1], b[2], b[3], b[4], b[5]]) as u128
}

fn new_number(b: &[u8]) -> u128
    requires { length b.now ≡ lrsn_width }
    ensures value { result ≡ big_number lrsn_width b.now }
    ensures range { IsLrsn result }
{
    u128::from_be_bytes([
        0, 0, 0, 0, 0, 0, b[0], b[1], b[2], b[3], b[4], b[5], b[6], b[7], b[8], b[9],
    ])
}

/// The number that these bytes of a record of the version are.
pub fn number_in(version: Version, bytes: &[u8]) -> u128
    requires { length bytes.now ≡ width_of version }
    ensures value { result ≡ big_number (width_of version) bytes.now }
    ensures range { IsLrsn result }
{
    match version {
        Version::One => old_number(bytes),
        Version::Two => new_number(bytes),
    }
}
