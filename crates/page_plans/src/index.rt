//! What the pages of an index say to an action.
ghost use Rattle.std.specs.Prelude.{◌≡◌, ◌<◌, ◌^◌, ◌-◌, true, IfSome};
ghost use Rattle.page_format.specs.Header.{entries_per_page};
ghost use Rattle.index_leaf.specs.Entries.{count_of, entries_of, IsRising};
ghost use Rattle.index_leaf.specs.Changes.{id_of, next_page_of};
ghost use Rattle.ds_base.specs.Pages.{index_page};
ghost use Rattle.page_plans.specs.Looks.{new_look, index_format_look, leaf_found, leaf_look, index_header_look, full_page_look, split_page_look, room_in, branch_found, branch_look, draws, goes_on, place_in};

use crate::action::{Action, Look};
use crate::faults::{node_fault, page_fault, search_fault};
use crate::heap::{is_new, unless_fault};
use ds_base::{Key, PageId, Place, TableId};
use index_leaf::{Look as Found, count, look, next_page};
use page_format::{ENTRIES_PER_PAGE, Page, PageKind};

// Where the number of the next free page stands in the header of an index.
const NEXT_AT: u32 = 32;

// A page that is to be made, and is empty before.
fn new_look(id: PageId, page: &Page, next: Look) -> Look
    ensures { result ≡ new_look id page.now next }
{
    unless_fault(page_fault(PageKind::Empty, id, page), next)
}

/// The pages of an index that is to be made.
pub fn index_format_look(table: TableId, nth: usize, page: &Page) -> Look
    ensures { result ≡ index_format_look table nth page.now }
{
    let next = Look::Next {
        page: table.index_page(1),
        place: None,
    };
    let last = Look::Next {
        page: table.index_page(2),
        place: None,
    };
    match nth {
        0 if is_new(table.index_page(0), page) => next,
        0 => Look::Done,
        1 => new_look(table.index_page(1), page, last),
        2 => new_look(table.index_page(2), page, Look::Draw),
        _ => Look::Done,
    }
}

// Where a leaf leads the key that is to have a slot.
fn leaf_found(table: TableId, key: Key, found: Found, count: u16) -> Look
    ensures { result ≡ leaf_found table key found count }
{
    match found {
        Found::Right(leaf) => Look::Anew(Action::GiveSlot { table, key, leaf }),
        Found::Down(_) | Found::Found(_) => Look::Done,
        Found::Absent if count == ENTRIES_PER_PAGE => Look::Done,
        Found::Absent => Look::Draw,
    }
}

/// The leaf in which a key is entered.
pub fn leaf_look(table: TableId, key: Key, leaf: u32, page: &Page) -> Look
    ensures exact { result ≡ leaf_look table key leaf page.now }
    ensures name { draws result ≡ true → id_of page.now ≡ index_page table leaf }
    ensures rising { draws result ≡ true → IsRising (entries_of page.now) }
    ensures room { draws result ≡ true → count_of page.now < entries_per_page }
{
    if let Some(at) = search_fault(PageKind::Leaf, table.index_page(leaf), key, page) {
        return Look::Damaged { at: at as u32 };
    }
    leaf_found(table, key, look(page, key), count(page))
}

/// The header of an index that gives a page.
pub fn index_header_look(table: TableId, left: u32, header: &Page) -> Look
    ensures exact { result ≡ index_header_look table left header.now }
    ensures next { IfSome (place_in result) (λ place. next_page_of header.now < 2 ^ 32 - 1) }
    ensures name { IfSome (place_in result) (λ place. id_of header.now ≡ index_page table 0) }
{
    if let Some(at) = page_fault(PageKind::IndexHeader, table.index_page(0), header) {
        return Look::Damaged { at: at as u32 };
    }
    let next = next_page(header);
    if next == u32::MAX {
        return Look::Damaged { at: NEXT_AT };
    }
    Look::Next {
        page: table.index_page(left),
        place: Some(Place {
            page: next,
            slot: 0,
        }),
    }
}

/// The page that is to be split.
pub fn full_page_look(table: TableId, left: u32, place: Option<Place>, page: &Page) -> Look
    ensures exact { result ≡ full_page_look table left place page.now }
    ensures full { goes_on result ≡ true → count_of page.now ≡ entries_per_page }
    ensures name { goes_on result ≡ true → id_of page.now ≡ index_page table left }
{
    let Some(at) = place else {
        return Look::Done;
    };
    if let Some(at) = node_fault(table.index_page(left), page) {
        return Look::Damaged { at: at as u32 };
    }
    if count(page) != ENTRIES_PER_PAGE {
        return Look::Done;
    }
    Look::Next {
        page: table.index_page(at.page),
        place,
    }
}

/// The page that is to be split off.
pub fn split_page_look(table: TableId, place: Option<Place>, page: &Page) -> Look
    ensures { result ≡ split_page_look table place page.now }
{
    let Some(at) = place else {
        return Look::Done;
    };
    new_look(table.index_page(at.page), page, Look::Draw)
}

// A branch that doesn't lead to the leaf yet.
fn room_in(table: TableId, branch: u32, count: u16) -> Look
    ensures { result ≡ room_in table branch count }
{
    if count == ENTRIES_PER_PAGE {
        Look::Split(Action::Split {
            table,
            left: branch,
        })
    } else {
        Look::Draw
    }
}

// Where a branch leads the least key of a leaf.
fn branch_found(table: TableId, branch: u32, low: Key, child: u32, found: Found, count: u16) -> Look
    ensures { result ≡ branch_found table branch low child found count }
{
    match found {
        Found::Right(branch) => Look::Anew(Action::BranchEntry {
            table,
            branch,
            low,
            child,
        }),
        Found::Found(_) => Look::Done,
        Found::Down(number) if number == child => Look::Done,
        Found::Down(_) | Found::Absent => room_in(table, branch, count),
    }
}

/// The branch in which a leaf is entered.
pub fn branch_look(table: TableId, branch: u32, low: Key, child: u32, page: &Page) -> Look
    ensures exact { result ≡ branch_look table branch low child page.now }
    ensures name { draws result ≡ true → id_of page.now ≡ index_page table branch }
    ensures rising { draws result ≡ true → IsRising (entries_of page.now) }
    ensures room { draws result ≡ true → count_of page.now < entries_per_page }
{
    if let Some(at) = search_fault(PageKind::Branch, table.index_page(branch), low, page) {
        return Look::Damaged { at: at as u32 };
    }
    branch_found(table, branch, low, child, look(page, low), count(page))
}
