//! What a page says to an action.
ghost use Rattle.std.specs.Prelude.{◌≡◌, None};
ghost use Rattle.page_plans.specs.Looks.{slot_look, split_look, branch_only_look, row_look, look_of, place_in};

use crate::action::{Action, Look};
use crate::heap::{header_look, heap_format_look, heap_page_look, unless_fault};
use crate::index::{
    branch_look, full_page_look, index_format_look, index_header_look, leaf_look, split_page_look,
};
use ds_base::{Key, Place, TableId};
use page_format::Page;
use page_redo::row_fault;

fn slot_look(
    table: TableId,
    key: Key,
    leaf: u32,
    limit: u32,
    nth: usize,
    place: Option<Place>,
    page: &Page,
) -> Look
    ensures { result ≡ slot_look table key leaf limit nth place page.now }
{
    match nth {
        0 => header_look(table, limit, page),
        1 => heap_page_look(table, leaf, place, page),
        2 => leaf_look(table, key, leaf, page),
        _ => Look::Done,
    }
}

fn split_look(table: TableId, left: u32, nth: usize, place: Option<Place>, page: &Page) -> Look
    ensures { result ≡ split_look table left nth place page.now }
{
    match nth {
        0 => index_header_look(table, left, page),
        1 => full_page_look(table, left, place, page),
        2 => split_page_look(table, place, page),
        _ => Look::Done,
    }
}

fn branch_only_look(
    table: TableId,
    branch: u32,
    low: Key,
    child: u32,
    nth: usize,
    page: &Page,
) -> Look
    ensures { result ≡ branch_only_look table branch low child nth page.now }
{
    if nth == 0 {
        branch_look(table, branch, low, child, page)
    } else {
        Look::Done
    }
}

// The page of the row that is to be changed.
fn row_look(table: TableId, key: Key, place: Place, nth: usize, page: &Page) -> Look
    ensures { result ≡ row_look table key place nth page.now }
{
    if nth != 0 {
        return Look::Done;
    }
    let fault = row_fault(page, table.heap_page(place.page), place.slot, key);
    unless_fault(fault, Look::Draw)
}

/// Where an action goes on from its `nth` page, from 0, by the page as it is in the event that found it valid. The heap
/// may have `limit` pages of rows, and `place` is what the look before has told.
pub fn look(action: &Action, limit: u32, nth: usize, place: Option<Place>, page: &Page) -> Look
    ensures { result ≡ look_of action.now limit nth place page.now }
{
    match action {
        Action::FormatIndex { table } => index_format_look(*table, nth, page),
        Action::FormatHeap { table } => heap_format_look(*table, nth, page),
        Action::GiveSlot { table, key, leaf } => {
            slot_look(*table, *key, *leaf, limit, nth, place, page)
        }
        Action::Split { table, left } => split_look(*table, *left, nth, place, page),
        Action::BranchEntry {
            table,
            branch,
            low,
            child,
        } => branch_only_look(*table, *branch, *low, *child, nth, page),
        Action::RowChange {
            table,
            key,
            place,
            ..
        } => row_look(*table, *key, *place, nth, page),
    }
}

/// What the first page of an action leads to: the slot to be given, or the page to be split off.
pub fn place_of(action: &Action, limit: u32, first: &Page) -> Option<Place>
    ensures { result ≡ place_in (look_of action.now limit 0 None first.now) }
{
    match look(action, limit, 0, None, first) {
        Look::Next { place, .. } => place,
        Look::Draw
        | Look::Done
        | Look::Anew(_)
        | Look::Split(_)
        | Look::Full { .. }
        | Look::Damaged { .. } => None,
    }
}
