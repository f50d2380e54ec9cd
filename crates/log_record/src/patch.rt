//! The patches of pages, of which each is a page, an offset there, and the bytes from there on.

ghost use Rattle.std.specs.Prelude.{◌≡◌};
ghost use Rattle.log_record.specs.Fields.{set_at, number_in_set_at, start_at, size_at, content_at, page_id_at, patch_at, patches_from, patch_count_at, patches_at};
ghost use Rattle.log_record.specs.Reading.{Answers};

use crate::fault::RecordFault;
use crate::field::bytes_at;
use crate::layout::{PAGE_SETS, PAGE_SIZE, PATCH_LIMIT, PATCHES_LIMIT};
use byteorder::{BigEndian, ByteOrder};
use ds_base::{Bytes, PageId};
use ds_model::{Patch, Patches};
use std::alloc::Global;

#[tactic(auto, unfolding(crate::specs::Fields::field_at))]
fn set_at(fields: &[u8], at: usize) -> Result<(u16, usize), RecordFault>
    ensures { result ≡ set_at fields.now at }
{
    let set = BigEndian::read_u16(bytes_at(fields, at, 2)?);
    if 1 <= set && set <= PAGE_SETS {
        Ok((set, at + 2))
    } else {
        Err(RecordFault::Bad { at })
    }
}

#[tactic(auto, unfolding(crate::specs::Fields::field_at))]
fn number_in_set_at(fields: &[u8], at: usize) -> Result<(u32, usize), RecordFault>
    ensures { result ≡ number_in_set_at fields.now at }
{
    let bytes = bytes_at(fields, at, 4)?;
    Ok((BigEndian::read_u32(bytes), at + 4))
}

#[tactic(auto, unfolding(crate::specs::Fields::page_id_at))]
fn page_id_at(fields: &[u8], at: usize) -> Result<(PageId, usize), RecordFault>
    ensures { result ≡ page_id_at fields.now at }
{
    let (set, at) = set_at(fields, at)?;
    let (number, at) = number_in_set_at(fields, at)?;
    Ok((PageId { set, number }, at))
}

#[tactic(auto, unfolding(crate::specs::Fields::field_at))]
fn start_at(fields: &[u8], at: usize) -> Result<(u16, usize), RecordFault>
    ensures { result ≡ start_at fields.now at }
{
    let bytes = bytes_at(fields, at, 2)?;
    Ok((BigEndian::read_u16(bytes), at + 2))
}

// How many bytes a patch has that begins at this offset of its page.
#[tactic(auto, unfolding(crate::specs::Fields::field_at))]
fn size_at(start: u16, fields: &[u8], at: usize) -> Result<(usize, usize), RecordFault>
    ensures { result ≡ size_at start fields.now at }
{
    let size = BigEndian::read_u16(bytes_at(fields, at, 2)?) as usize;
    if 1 <= size && size <= PATCH_LIMIT && start as usize + size <= PAGE_SIZE {
        Ok((size, at + 2))
    } else {
        Err(RecordFault::Bad { at })
    }
}

#[tactic(auto, unfolding(crate::specs::Fields::field_at))]
fn content_at(
    alloc: Global,
    size: usize,
    fields: &[u8],
    at: usize,
) -> Result<(Bytes, usize), RecordFault>
    ensures { Answers result (content_at size fields.now at) }
{
    let bytes = bytes_at(fields, at, size)?;
    let mut content = Bytes::new(alloc);
    content.extend(bytes)?;
    Ok((content, at + size))
}

#[tactic(auto, unfolding(crate::specs::Fields::patch_at))]
fn patch_at(alloc: Global, fields: &[u8], at: usize) -> Result<(Patch, usize), RecordFault>
    ensures { Answers result (patch_at fields.now at) }
{
    let (page, at) = page_id_at(fields, at)?;
    let (offset, at) = start_at(fields, at)?;
    let (size, at) = size_at(offset, fields, at)?;
    let (bytes, at) = content_at(alloc, size, fields, at)?;
    let patch = Patch {
        page,
        offset,
        bytes,
    };
    Ok((patch, at))
}

fn patches_from(
    alloc: Global,
    count: usize,
    fields: &[u8],
    start: usize,
) -> Result<(Patches, usize), RecordFault>
    ensures { Answers result (patches_from count fields.now start) }
{
    let mut patches = Patches::new(alloc);
    let mut at = start;
    for _ in 0..count {
        let (patch, next) = patch_at(alloc, fields, at)?;
        patches.push(patch)?;
        at = next;
    }
    Ok((patches, at))
}

#[tactic(auto, unfolding(crate::specs::Fields::field_at))]
fn patch_count_at(fields: &[u8], at: usize) -> Result<(usize, usize), RecordFault>
    ensures { result ≡ patch_count_at fields.now at }
{
    let count = bytes_at(fields, at, 1)?[0] as usize;
    if 1 <= count && count <= PATCHES_LIMIT {
        Ok((count, at + 1))
    } else {
        Err(RecordFault::Bad { at })
    }
}

#[tactic(auto, unfolding(crate::specs::Fields::patches_at))]
pub fn patches_at(alloc: Global, fields: &[u8], at: usize) -> Result<(Patches, usize), RecordFault>
    ensures { Answers result (patches_at fields.now at) }
{
    let (count, at) = patch_count_at(fields, at)?;
    patches_from(alloc, count, fields, at)
}
