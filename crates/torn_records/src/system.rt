ghost use Rattle.std.specs.Prelude.{◌≡◌, ℕ, ◌+◌, ◌-◌, ◌*◌, ◌<◌, ◌≤◌, ◌++◌, length, slice_index, OnOk};
ghost use Rattle.torn_records.specs.Fronts.{Tells, IsSystemOf, IsSystemIn, HasPatches};
ghost use Rattle.torn_records.specs.Templates.{patch_text, patches_text, next_size, sizes_from};

use crate::frame::is_front_with;
use crate::seen::begins_with;
use ds_base::{Bytes, NoMemory};
use ds_model::Version;
use log_record::width_of;
use std::alloc::Global;

// The bytes of a patch before its own.
const HEADER: usize = 10;

// The most bytes of a patch.
const LONGEST: usize = 4074;

// The high byte of the next patch's size, or 0 where it isn't seen.
#[tactic(auto, using(std::proofs::lemmas::List::get_or_past))]
fn high_byte(here: &[u8]) -> usize
    ensures byte { result ≡ slice_index here.now 8 }
    ensures small { result ≤ 255 }
{
    if 8 < here.len() { here[8] as usize } else { 0 }
}

// How many bytes the next patch has, behind which so many more stand.
#[tactic(auto, using(crate::proofs::Sizes::seen_size, crate::proofs::Sizes::least_size))]
fn next_size(here: &[u8], more: usize, left: usize) -> usize
    requires more_in { more ≤ 12 }
    requires left_in { left ≤ 16384 }
    ensures size { result ≡ next_size here.now more left }
    ensures small { result ≤ 65535 }
{
    if HEADER <= here.len() {
        return 256 * here[8] as usize + here[9] as usize;
    }
    (256 * high_byte(here))
        .max(1)
        .max(left.saturating_sub(HEADER + LONGEST * more))
}

// A patch of so many zeros at the front of the first page.
fn put_patch(alloc: Global, text: &mut Bytes, size: usize) -> Result<(), NoMemory>
    requires { size ≤ 65535 }
    ensures { OnOk result (text.new ≡ text.old ++ patch_text size) }
{
    let zeros = vec![in alloc; 0u8; size].map_err(|_| NoMemory)?;
    let high = (size as u16).to_be_bytes();
    text.extend(&[0, 1, 0, 0, 0, 0, 0, 0])?;
    text.extend(&high)?;
    text.extend(&zeros)?;
    Ok(())
}

// So many patches, whose first bytes are these and which have so many bytes together.
fn put_patches(
    alloc: Global,
    text: &mut Bytes,
    here: &[u8],
    count: usize,
    left: usize,
) -> Result<(), NoMemory>
    requires count_in { count ≤ 12 }
    requires left_in { left ≤ 16384 }
    ensures text { OnOk result (text.new ≡ text.old ++ patches_text (sizes_from count here.now left)) }
    ensures short { OnOk result (length text.new ≤ length text.old + count * 65545) }
{
    if count == 0 {
        return Ok(());
    }
    let size = next_size(here, count - 1, left);
    put_patch(alloc, text, size)?;
    let behind = (HEADER + size).min(here.len());
    put_patches(
        alloc,
        text,
        &here[behind..],
        count - 1,
        left.saturating_sub(HEADER + size),
    )?;
    Ok(())
}

// Whether the bytes are a front of a record of so many bytes, with so many patches.
fn is_front_of_patches(
    alloc: Global,
    bytes: &[u8],
    version: Version,
    size: usize,
    count: usize,
) -> Result<bool, NoMemory>
    requires size_in { size ≤ 16384 }
    requires count_in { count ≤ 12 }
    ensures { Tells bytes.now (IsSystemOf version size count) result }
{
    let at = 7 + 2 * width_of(version);
    let here = &bytes[at.min(bytes.len())..];
    let mut text = Bytes::new(alloc);
    text.extend(&[count as u8])?;
    put_patches(alloc, &mut text, here, count, size.saturating_sub(at + 4))?;
    is_front_with(alloc, bytes, version, 3, false, text.as_slice())
}

fn is_front_of_size(
    alloc: Global,
    bytes: &[u8],
    version: Version,
    size: usize,
) -> Result<bool, NoMemory>
    requires { size ≤ 16384 }
    ensures { Tells bytes.now (IsSystemIn version size) result }
{
    for count in 0..13usize {
        let is_front = is_front_of_patches(alloc, bytes, version, size, count)?;
        if is_front {
            return Ok(true);
        }
    }
    Ok(false)
}

// The same of records of this size, where its bytes are those that are seen.
fn is_front_at(alloc: Global, bytes: &[u8], version: Version, size: usize) -> Result<bool, NoMemory>
    requires { size ≤ 16384 }
    ensures { Tells bytes.now (IsSystemIn version size) result }
{
    let begins = begins_with(bytes, size as u32);
    if begins {
        is_front_of_size(alloc, bytes, version, size)
    } else {
        Ok(false)
    }
}

/// Whether the bytes are a proper front of a record of the version with patches of pages.
pub fn is_front_of_system(alloc: Global, bytes: &[u8], version: Version) -> Result<bool, NoMemory>
    ensures { Tells bytes.now (HasPatches version) result }
{
    for size in 0..16_385usize {
        let is_front = is_front_at(alloc, bytes, version, size)?;
        if is_front {
            return Ok(true);
        }
    }
    Ok(false)
}
