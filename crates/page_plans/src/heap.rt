//! What the pages of a heap say to an action.
ghost use Rattle.std.specs.Prelude.{◌≡◌, ◌<◌, ◌≤◌, ◌^◌, ◌-◌};
ghost use Rattle.page_plans.specs.Looks.{limited, is_new, heap_format_look, slot_behind, header_look, heap_page_look, unless_fault, MayGive, place_in};

use crate::action::Look;
use crate::faults::{is_kind, new_page_fault};
use ds_base::{PageId, Place, TableId};
use heap_space::{SpaceFull, header_is_allowed, last_page, next_slot};
use page_format::{Page, PageKind};

// Where the last page and its slots stand in the header of a heap.
const LAST_PAGE_AT: u16 = 32;

const GIVEN_AT: u16 = 36;

/// The offset of a field as what a look says, or what it says where there is no fault.
pub fn unless_fault(fault: Option<u16>, look: Look) -> Look
    ensures { result ≡ unless_fault fault look }
{
    match fault {
        None => look,
        Some(at) => Look::Damaged { at: at as u32 },
    }
}

/// Whether the page is still empty.
pub fn is_new(id: PageId, page: &Page) -> bool
    ensures { result ≡ is_new id page.now }
{
    match page.read_header(id) {
        Ok(header) => is_kind(PageKind::Empty, header.kind),
        Err(_) => false,
    }
}

/// The header of a heap that is to be made.
pub fn heap_format_look(table: TableId, nth: usize, page: &Page) -> Look
    ensures { result ≡ heap_format_look table nth page.now }
{
    if nth == 0 && is_new(table.heap_page(0), page) {
        Look::Draw
    } else {
        Look::Done
    }
}

// A number of pages above which a heap can't have one.
fn limited(limit: u32) -> u32
    ensures exact { result ≡ limited limit }
    ensures range { result < 2 ^ 32 - 1 }
{
    if limit < u32::MAX {
        limit
    } else {
        u32::MAX - 1
    }
}

// The next slot, by the fields of the header of a heap.
fn slot_behind(table: TableId, limit: u32, header: &Page) -> Look
    ensures exact { result ≡ slot_behind table limit header.now }
    ensures range { MayGive (place_in result) }
{
    if !header_is_allowed(header) {
        let at = if last_page(header) < u32::MAX {
            GIVEN_AT
        } else {
            LAST_PAGE_AT
        };
        return Look::Damaged { at: at as u32 };
    }
    match next_slot(header, limited(limit)) {
        Ok(place) => Look::Next {
            page: table.heap_page(place.page),
            place: Some(place),
        },
        Err(SpaceFull { pages }) => Look::Full { pages },
    }
}

/// The header of a heap that gives a slot, and may have `limit` pages of rows.
pub fn header_look(table: TableId, limit: u32, header: &Page) -> Look
    ensures exact { result ≡ header_look table limit header.now }
    ensures range { MayGive (place_in result) }
{
    match header.read_header(table.heap_page(0)) {
        Err(fault) => Look::Damaged {
            at: fault.at as u32,
        },
        Ok(found) if is_kind(PageKind::HeapHeader, found.kind) => slot_behind(table, limit, header),
        Ok(_) => Look::Done,
    }
}

/// The page of the slot that is to be given.
pub fn heap_page_look(table: TableId, leaf: u32, place: Option<Place>, page: &Page) -> Look
    ensures { result ≡ heap_page_look table leaf place page.now }
{
    let Some(at) = place else {
        return Look::Done;
    };
    let fault = new_page_fault(table.heap_page(at.page), at.slot, page);
    let next = Look::Next {
        page: table.index_page(leaf),
        place,
    };
    unless_fault(fault, next)
}
