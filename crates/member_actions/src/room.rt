//! The bytes that the record of a change needs in the log buffer.
ghost use Rattle.std.specs.Prelude.{◌≤◌};
ghost use Rattle.page_format.specs.Header.{entries_per_page};
ghost use Rattle.index_leaf.specs.Entries.{count_of};

use ds_base::{Key, Place};
use index_leaf::{count, entry};
use page_format::{ENTRIES_PER_PAGE, Page};
use page_plans::Action;

/// The bytes of a record of a row change, at most.
pub const ROW_CHANGE: u32 = 249;

/// The bytes of a compensation and of the record that ends its transaction, at most.
pub const COMPENSATION: u32 = 289;

// The bytes of a record of patches, beside these; the bytes of a patch, beside those that it puts.
const RECORD: u32 = 31;

const PATCH: u32 = 10;

// The bytes that patches put: the front of a page, its count, an entry of the index, half of a page's entries, and a slot.
const FRONT: u32 = 12;

const COUNT: u32 = 2;

const ENTRY: u32 = 16;

const HALF: u32 = 126 * ENTRY;

const SLOT: u32 = 128;

// The bytes of the header of an index, of a heap, and of the fields of a page that is split and of the page on its right.
const NEXT: u32 = 4;

const LAST: u32 = 6;

const LINK: u32 = 16;

const FIELDS: u32 = 24;

// Six patches: the fronts of three pages, the number of the next page, and a first entry.
const INDEX: u32 = RECORD + 6 * PATCH + 3 * FRONT + NEXT + COUNT + ENTRY;

const HEAP: u32 = RECORD + PATCH + FRONT;

// Eight patches: the number of the next page, the left page and the right one.
const SPLIT: u32 = RECORD + 8 * PATCH + NEXT + COUNT + LINK + HALF + FRONT + COUNT + FIELDS + HALF;

fn count_above(page: &Page, key: Key) -> u32
    requires { count_of page.now ≤ entries_per_page }
{
    let mut above = 0u32;
    for at in 0..count(page) {
        match entry(page, at) {
            Some((its, _)) if key < its => above = above.saturating_add(1),
            _ => {}
        }
    }
    above
}

// How many entries of the page have keys above this one.
fn entries_above(page: &Page, key: Key) -> u32 {
    if count(page) <= ENTRIES_PER_PAGE {
        count_above(page, key)
    } else {
        0
    }
}

// The patches that enter a key: the count, and the entry with all that move behind it.
fn entry_bytes(page: &Page, key: Key) -> u32 {
    let moved = entries_above(page, key).saturating_add(1);
    moved
        .saturating_mul(ENTRY)
        .saturating_add(2 * PATCH + COUNT)
}

// The patches that give a slot. The first slot of a page makes the page.
fn slot_bytes(place: Option<Place>) -> u32 {
    let given = 3 * PATCH + LAST + COUNT + SLOT;
    match place {
        Some(place) if place.slot == 0 => given + PATCH + FRONT,
        _ => given,
    }
}

/// The length of the record of a change, by the page that was met last.
pub fn change_room(action: &Action, place: Option<Place>, page: &Page) -> u32 {
    match action {
        Action::FormatIndex { .. } => INDEX,
        Action::FormatHeap { .. } => HEAP,
        Action::GiveSlot { key, .. } => {
            let bytes = entry_bytes(page, *key).saturating_add(slot_bytes(place));
            bytes.saturating_add(RECORD)
        }
        Action::Split { .. } => SPLIT,
        Action::BranchEntry { low, .. } => entry_bytes(page, *low).saturating_add(RECORD),
        Action::RowChange { .. } => ROW_CHANGE,
    }
}
