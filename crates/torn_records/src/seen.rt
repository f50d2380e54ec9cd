//! What is seen of a record's length, its kind and its version.

ghost use Rattle.std.specs.Prelude.{◌≡◌, ◌+◌, ◌<◌, ◌≤◌, ◌↔◌, length, take, slice_index, IsTrue};
ghost use Rattle.std.specs.Int.{w32, to_be_bytes};
ghost use Rattle.ds_model.specs.RecordBytes.{version_byte, frame_of};
ghost use Rattle.torn_records.specs.Fronts.{MayBegin};

use ds_model::Version;
use log_record::width_of;

pub fn version_byte(version: Version) -> u8
    ensures { result ≡ version_byte version }
{
    match version {
        Version::One => 1,
        Version::Two => 2,
    }
}

/// How many bytes a record has without its body.
pub fn frame_of(version: Version) -> usize
    ensures exact { result ≡ frame_of version }
    ensures small { result ≤ 30 }
{
    10 + 2 * width_of(version)
}

/// Whether the bytes begin as a record of so many does, as far as they are seen.
pub fn begins_with(bytes: &[u8], size: u32) -> bool
    ensures { IsTrue result ↔ take 4 bytes.now ≡ take (length bytes.now) (to_be_bytes w32 size) }
{
    let size = size.to_be_bytes();
    let count = bytes.len().min(4);
    bytes[..count] == size[..count]
}

// Whether this byte stands there, where it is seen.
fn has_byte(bytes: &[u8], at: usize, byte: u8) -> bool
    ensures { IsTrue result ↔ (at < length bytes.now → slice_index bytes.now at ≡ byte) }
{
    match bytes.get(at) {
        Some(found) => *found == byte,
        None => true,
    }
}

/// Whether the bytes begin as a record of the version and the kind does whose body has so many bytes, as far as they are seen.
pub fn may_begin(bytes: &[u8], version: Version, kind: u8, count: usize) -> bool
    requires { count ≤ 1000000 }
    ensures { IsTrue result ↔ MayBegin version kind count bytes.now }
{
    let size = (frame_of(version) + count) as u32;
    let has_size = begins_with(bytes, size);
    let has_kind = has_byte(bytes, 4, kind);
    let has_version = has_byte(bytes, 5, version_byte(version));
    has_size && has_kind && has_version
}
