ghost use Rattle.std.specs.Prelude.{◌≡◌, ℕ, ◌+◌, ◌*◌, ◌-◌, ◌^◌, ◌<◌, ◌≤◌, [], ◌∷◌, ◌++◌, length, OnOk, OnErr, IfOk};
ghost use Rattle.page_format.specs.Fields.{page_size};
ghost use Rattle.page_format.specs.Header.{entries_per_page};
ghost use Rattle.index_leaf.specs.Entries.{first_entry_at, count_of, entries_of, IsRising};
ghost use Rattle.ds_base.specs.Pages.{index_page};
ghost use Rattle.index_leaf.specs.Changes.{id_of, patch_of, spelt, next_page_of, next_patch, count_patch, entry_bytes, front_of, front_patch, first_entry, index_header, branch, leaf, format_patches};

use crate::fields::{bytes_of, read_u16, read_u32};
use crate::layout::{
    COUNT_AT, Entry, FIRST_ENTRY_AT, FIRST_LEAF, NEXT_AT, NUMBER_AT, ROOT, SET_AT,
};
use ds_base::{Bytes, NoMemory, PageId, Place, TableId};
use page_format::{Page, Patch, Patches, VERSION};
use std::alloc::Global;

// The name that the page's header gives.
#[tactic(auto, unfolding(crate::specs::Changes::id_of))]
pub fn id_of(page: &Page) -> PageId
    ensures value { result ≡ id_of page.now }
    ensures whole { length page.now ≡ page_size }
{
    let bytes = bytes_of(page);
    PageId {
        set: read_u16(bytes, SET_AT),
        number: read_u32(bytes, NUMBER_AT),
    }
}

#[tactic(auto, unfolding(crate::specs::Changes::spelt))]
pub fn spell_u16(number: u16) -> [u8; 2]
    ensures { result ≡ spelt 2 number }
{
    number.to_be_bytes()
}

#[tactic(auto, unfolding(crate::specs::Changes::spelt))]
pub fn spell_u32(number: u32) -> [u8; 4]
    ensures { result ≡ spelt 4 number }
{
    number.to_be_bytes()
}

#[tactic(auto, unfolding(crate::specs::Changes::spelt))]
pub fn spell_u64(number: u64) -> [u8; 8]
    ensures { result ≡ spelt 8 number }
{
    number.to_be_bytes()
}

// New bytes for a part of a page.
pub fn make_patch(alloc: Global, page: PageId, offset: u16, bytes: &[u8]) -> Result<Patch, NoMemory>
    ensures { IfOk result (λ p. p ≡ patch_of page offset bytes.now) }
{
    let mut copy = Bytes::new(alloc);
    copy.extend(bytes)?;
    Ok(Patch {
        page,
        offset,
        bytes: copy,
    })
}

// The patch that makes this the next free page of an index.
fn next_patch(alloc: Global, header: PageId, next: u32) -> Result<Patch, NoMemory>
    ensures { IfOk result (λ p. p ≡ next_patch header next) }
{
    let number = spell_u32(next);
    make_patch(alloc, header, NEXT_AT as u16, &number)
}

// The patch that sets the count of entries.
pub fn count_patch(alloc: Global, page: PageId, count: u16) -> Result<Patch, NoMemory>
    ensures { IfOk result (λ p. p ≡ count_patch page count) }
{
    let number = spell_u16(count);
    make_patch(alloc, page, COUNT_AT as u16, &number)
}

/// The number of the next free page, by the header of the index.
#[tactic(auto, unfolding(crate::specs::Changes::next_page_of))]
pub fn next_page(header: &Page) -> u32
    ensures { result ≡ next_page_of header.now }
{
    read_u32(header.bytes(), NEXT_AT)
}

/// What takes the next free page: the patch of the header that raises its number by one.
pub fn take_next(alloc: Global, header: &Page) -> Result<Patch, NoMemory>
    requires { next_page_of header.now < 2 ^ 32 - 1 }
    ensures { IfOk result (λ p. p ≡ next_patch (id_of header.now) (next_page_of header.now + 1)) }
{
    next_patch(alloc, id_of(header), next_page(header) + 1)
}

// Adds the bytes of an entry.
#[tactic(auto, unfolding(crate::specs::Changes::entry_bytes))]
pub fn put_entry(bytes: &mut Bytes, entry: Entry) -> Result<(), NoMemory>
    ensures { OnOk result (bytes.new ≡ bytes.old ++ entry_bytes entry) }
{
    bytes.extend(&spell_u64(entry.key))?;
    bytes.extend(&spell_u32(entry.place.page))?;
    bytes.extend(&spell_u16(entry.place.slot))?;
    bytes.extend(&[0, 0])
}

// The patch that writes the header of a page of this kind.
#[tactic(auto, unfolding(crate::specs::Changes::front_of))]
pub fn front_patch(alloc: Global, kind: u8, page: PageId) -> Result<Patch, NoMemory>
    ensures { IfOk result (λ p. p ≡ front_patch kind page) }
{
    let mut bytes = Bytes::new(alloc);
    bytes.extend(&[b'D', b'S', b'G', b'1', kind, VERSION])?;
    bytes.extend(&spell_u16(page.set))?;
    bytes.extend(&spell_u32(page.number))?;
    Ok(Patch {
        page,
        offset: 0,
        bytes,
    })
}

// Adds what writes the header of an index.
fn format_header(alloc: Global, page: PageId, patches: &mut Patches) -> Result<(), NoMemory>
    ensures { OnOk result (patches.new ≡ patches.old ++ front_patch index_header page ∷ next_patch page 3 ∷ []) }
{
    patches.push(front_patch(alloc, 3, page)?)?;
    patches.push(next_patch(alloc, page, FIRST_LEAF + 1)?)
}

// Adds what writes the first branch, which leads all keys to the first leaf.
fn format_branch(alloc: Global, page: PageId, patches: &mut Patches) -> Result<(), NoMemory>
    ensures { OnOk result (patches.new ≡ patches.old ++ front_patch branch page ∷ count_patch page 1 ∷ patch_of page first_entry_at (entry_bytes first_entry) ∷ []) }
{
    patches.push(front_patch(alloc, 4, page)?)?;
    patches.push(count_patch(alloc, page, 1)?)?;
    let place = Place {
        page: FIRST_LEAF,
        slot: 0,
    };
    let mut bytes = Bytes::new(alloc);
    put_entry(&mut bytes, Entry { key: 0, place })?;
    let offset = FIRST_ENTRY_AT as u16;
    patches.push(Patch {
        page,
        offset,
        bytes,
    })
}

/// What makes a new index of pages 0, 1 and 2 of the table's index, where they are all zeros: the header, a branch
/// that leads all keys to page 2, and a leaf without entries.
pub fn format_index(alloc: Global, table: TableId) -> Result<Patches, NoMemory>
    ensures { IfOk result (λ patches. patches ≡ format_patches table) }
{
    let mut patches = Patches::new(alloc);
    format_header(alloc, table.index_page(0), &mut patches)?;
    format_branch(alloc, table.index_page(ROOT), &mut patches)?;
    patches.push(front_patch(alloc, 5, table.index_page(FIRST_LEAF))?)?;
    Ok(patches)
}
