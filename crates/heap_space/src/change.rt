ghost use Rattle.std.specs.Prelude.{◌≡◌, ◌+◌, ◌-◌, ◌^◌, ◌≤◌, ◌<◌, ◌++◌, OnOk, IfOk};
ghost use Rattle.byteorder.specs.Endian.{big_bytes};
ghost use Rattle.page_format.specs.Header.{slots_per_page};
ghost use Rattle.ds_base.specs.Pages.{heap_page};
ghost use Rattle.heap_space.specs.Changes.{front, front_patch, front_patches, last_patch, count_patch, slot_patch, format_patches, give_patches};

use crate::image::slot_image;
use crate::layout::{COUNT_AT, LAST_PAGE_AT};
use crate::slot::slot_at;
use ds_base::{Bytes, Key, NoMemory, PageId, Place, TableId};
use page_format::{Patch, Patches, VERSION};
use std::alloc::Global;

/// The kind of a heap's header page.
const HEAP_HEADER: u8 = 1;

/// The kind of a page of rows.
const HEAP: u8 = 2;

fn patch_of(alloc: Global, page: PageId, offset: u16, bytes: &[u8]) -> Result<Patch, NoMemory>
    ensures { IfOk result (λ patch. patch ≡ record { page = page; offset = offset; bytes = bytes.now }) }
{
    let mut copy = Bytes::new(alloc);
    copy.extend(bytes)?;
    Ok(Patch {
        page,
        offset,
        bytes: copy,
    })
}

// The mark, the kind, the version, and the page's name.
fn front(kind: u8, id: PageId) -> [u8; 12]
    ensures { result ≡ front kind id }
{
    let set = id.set.to_be_bytes();
    let number = id.number.to_be_bytes();
    [
        b'D', b'S', b'G', b'1', kind, VERSION, set[0], set[1], number[0], number[1], number[2],
        number[3],
    ]
}

fn front_patch(alloc: Global, kind: u8, id: PageId) -> Result<Patch, NoMemory>
    ensures { IfOk result (λ patch. patch ≡ front_patch kind id) }
{
    patch_of(alloc, id, 0, &front(kind, id))
}

/// The patches that make the empty header page of a table's heap one.
#[tactic(auto, unfolding(crate::specs::Changes::format_patches))]
pub fn format_heap(alloc: Global, table: TableId) -> Result<Patches, NoMemory>
    ensures { IfOk result (λ patches. patches ≡ format_patches table) }
{
    let mut patches = Patches::new(alloc);
    patches.push(front_patch(alloc, HEAP_HEADER, table.heap_page(0))?)?;
    Ok(patches)
}

// The last page, and how many slots of it are given.
fn last_bytes(place: Place) -> [u8; 6]
    requires { place.slot < slots_per_page }
    ensures { result ≡ big_bytes 4 place.page ++ big_bytes 2 (place.slot + 1) }
{
    let page = place.page.to_be_bytes();
    let given = (place.slot + 1).to_be_bytes();
    [page[0], page[1], page[2], page[3], given[0], given[1]]
}

fn last_patch(alloc: Global, table: TableId, place: Place) -> Result<Patch, NoMemory>
    requires { place.slot < slots_per_page }
    ensures { IfOk result (λ patch. patch ≡ last_patch table place) }
{
    patch_of(alloc, table.heap_page(0), LAST_PAGE_AT, &last_bytes(place))
}

fn count_patch(alloc: Global, table: TableId, place: Place) -> Result<Patch, NoMemory>
    requires { place.slot < slots_per_page }
    ensures { IfOk result (λ patch. patch ≡ count_patch table place) }
{
    let count = (place.slot + 1).to_be_bytes();
    patch_of(alloc, table.heap_page(place.page), COUNT_AT, &count)
}

fn slot_patch(alloc: Global, table: TableId, place: Place, key: Key) -> Result<Patch, NoMemory>
    requires { place.slot < slots_per_page }
    ensures { IfOk result (λ patch. patch ≡ slot_patch table place key) }
{
    let page = table.heap_page(place.page);
    patch_of(
        alloc,
        page,
        slot_at(place.slot) as u16,
        &slot_image(key, None),
    )
}

// The first slot of a page formats it.
fn push_front(
    alloc: Global,
    patches: &mut Patches,
    table: TableId,
    place: Place,
) -> Result<(), NoMemory>
    ensures { OnOk result (patches.new ≡ patches.old ++ front_patches table place) }
{
    if place.slot == 0 {
        patches.push(front_patch(alloc, HEAP, table.heap_page(place.page))?)?;
    }
    Ok(())
}

/// The patches of the header page and of the page of rows that give the slot at this place to a key, without a row.
/// A page of rows whose first slot is given is empty before.
#[tactic(auto, unfolding(crate::specs::Changes::give_patches))]
pub fn give(alloc: Global, table: TableId, place: Place, key: Key) -> Result<Patches, NoMemory>
    requires page { (1 ≤ place.page) × (place.page < 2 ^ 32 - 1) }
    requires slot { place.slot < slots_per_page }
    ensures { IfOk result (λ patches. patches ≡ give_patches table place key) }
{
    let mut patches = Patches::new(alloc);
    patches.push(last_patch(alloc, table, place)?)?;
    push_front(alloc, &mut patches, table, place)?;
    patches.push(count_patch(alloc, table, place)?)?;
    patches.push(slot_patch(alloc, table, place, key)?)?;
    Ok(patches)
}
