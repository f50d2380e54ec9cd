ghost use Rattle.std.specs.Prelude.{◌≡◌, ◌↔◌, ◌<◌, ◌≤◌, IsTrue};
ghost use Rattle.page_format.specs.Header.{slots_per_page};
ghost use Rattle.heap_space.specs.Layout.{slot_at, given_at};
ghost use Rattle.heap_space.specs.Next.{given_of};
ghost use Rattle.heap_space.specs.Slots.{said};
ghost use Rattle.sound_disk.specs.Heaps.{is_given, IsHeapHeader, IsRowPage};
ghost use Rattle.table_pages.specs.Kinds.{both_or_neither};
ghost use Rattle.table_pages.specs.Heaps.{is_heap_header, slot_fits, slots_fit, has_rows, is_row_page};

use crate::bytes::{
    both_or_neither, count_in, has_clean_header, has_kind, read_u16, rest_is_zeros,
};
use ds_base::PageId;
use heap_space::{Slot, header_is_allowed, last_page, row, slot_is_allowed};
use page_format::{Page, PageKind, SLOTS_PER_PAGE};

/// How many slots of the last page are given, by a heap's header page.
pub fn given_in(page: &Page) -> u16
    ensures { result ≡ given_of page.now }
{
    read_u16(page, 36)
}

fn test_header(page: &Page, id: PageId) -> bool
    ensures { result ≡ is_heap_header id page.now }
{
    has_kind(page, id, PageKind::HeapHeader)
        && has_clean_header(page)
        && header_is_allowed(page)
        && both_or_neither(last_page(page) == 0, given_in(page) == 0)
        && rest_is_zeros(page, 38)
}

/// Whether the page is the header page of a heap, and right.
pub fn is_heap_header(page: &Page, id: PageId) -> bool
    ensures { IsTrue result ↔ IsHeapHeader id page.now }
{
    test_header(page, id)
}

fn is_given(slot: Slot<'_>) -> bool
    ensures { result ≡ is_given (said slot.entry) }
{
    match slot {
        Slot::Never => false,
        Slot::Absent { .. } | Slot::Present { .. } => true,
    }
}

fn slot_fits(page: &Page, slot: u16) -> bool
    requires { slot < slots_per_page }
    ensures { result ≡ slot_fits page.now slot }
{
    slot_is_allowed(page, slot) && is_given(row(page, slot))
}

fn slots_fit(page: &Page, count: u16) -> bool
    requires { count ≤ slots_per_page }
    ensures { result ≡ slots_fit page.now count }
{
    for slot in 0..count {
        if !slot_fits(page, slot) {
            return false;
        }
    }
    true
}

fn slots_end(count: u16) -> usize
    requires { count ≤ slots_per_page }
    ensures { result ≡ slot_at count }
{
    32 + 128 * count as usize
}

fn has_rows(page: &Page, count: u16) -> bool
    ensures { result ≡ has_rows page.now count }
{
    count <= SLOTS_PER_PAGE && slots_fit(page, count) && rest_is_zeros(page, slots_end(count))
}

fn test_rows(page: &Page, id: PageId) -> bool
    ensures { result ≡ is_row_page id page.now }
{
    has_kind(page, id, PageKind::Heap) && has_clean_header(page) && has_rows(page, count_in(page))
}

/// Whether the page is one of rows, and right: as many slots are given as its header says, from the first on.
pub fn is_row_page(page: &Page, id: PageId) -> bool
    ensures { IsTrue result ↔ IsRowPage id page.now }
{
    test_rows(page, id)
}
