//! The pages of a table, and those of an action.
ghost use Rattle.std.specs.Prelude.{◌≡◌};
ghost use Rattle.ds_base.specs.Pages.{heap_page, index_page};
ghost use Rattle.page_plans.specs.Names.{table_of, first_page, three_pages, slot_pages, split_pages, one_page, action_page};

use crate::action::Action;
use ds_base::{PageId, Place, TableId};

/// The table that has this page set.
pub fn table_of(set: u16) -> Option<TableId>
    ensures { result ≡ table_of set }
{
    TableId::new((set as u64 + 1) / 2)
}

/// The page that is met first.
pub fn first_page(action: &Action) -> PageId
    ensures { result ≡ first_page action.now }
{
    match action {
        Action::FormatIndex { table } | Action::Split { table, .. } => table.index_page(0),
        Action::FormatHeap { table } | Action::GiveSlot { table, .. } => table.heap_page(0),
        Action::BranchEntry { table, branch, .. } => table.index_page(*branch),
        Action::RowChange { table, place, .. } => table.heap_page(place.page),
    }
}

// The first three pages of an index.
fn three_pages(table: TableId, nth: usize) -> Option<PageId>
    ensures { result ≡ three_pages table nth }
{
    if nth < 3 {
        Some(table.index_page(nth as u32))
    } else {
        None
    }
}

fn slot_pages(table: TableId, leaf: u32, nth: usize, place: Option<Place>) -> Option<PageId>
    ensures { result ≡ slot_pages table leaf nth place }
{
    let Some(place) = place else {
        return None;
    };
    match nth {
        0 => Some(table.heap_page(0)),
        1 => Some(table.heap_page(place.page)),
        2 => Some(table.index_page(leaf)),
        _ => None,
    }
}

fn split_pages(table: TableId, left: u32, nth: usize, place: Option<Place>) -> Option<PageId>
    ensures { result ≡ split_pages table left nth place }
{
    let Some(place) = place else {
        return None;
    };
    match nth {
        0 => Some(table.index_page(0)),
        1 => Some(table.index_page(left)),
        2 => Some(table.index_page(place.page)),
        _ => None,
    }
}

fn one_page(page: PageId, nth: usize) -> Option<PageId>
    ensures { result ≡ one_page page nth }
{
    if nth == 0 { Some(page) } else { None }
}

/// The `nth` page of an action from 0, where `place` is what its first page leads to, and none past the last.
pub fn action_page(action: &Action, nth: usize, place: Option<Place>) -> Option<PageId>
    ensures { result ≡ action_page action.now nth place }
{
    match action {
        Action::FormatIndex { table } => three_pages(*table, nth),
        Action::GiveSlot { table, leaf, .. } => slot_pages(*table, *leaf, nth, place),
        Action::Split { table, left } => split_pages(*table, *left, nth, place),
        Action::FormatHeap { .. } | Action::BranchEntry { .. } | Action::RowChange { .. } => {
            one_page(first_page(action), nth)
        }
    }
}
