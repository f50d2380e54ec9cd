use ds_base::{Key, PageId, Place, TableId, Value};
use ds_model::RowChange;

/// A change of pages that is wanted.
#[derive(Clone, Copy, Debug)]
pub enum Action {
    /// The first pages of the table's index: its header, a branch and a leaf.
    FormatIndex {
        table: TableId,
    },
    /// The header page of the table's heap.
    FormatHeap {
        table: TableId,
    },
    /// The next slot of the heap for the key, without a row, and its entry in the leaf.
    GiveSlot {
        table: TableId,
        key: Key,
        leaf: u32,
    },
    /// The upper half of a full page of the index goes to a new page on its right.
    Split {
        table: TableId,
        left: u32,
    },
    /// The entry of a leaf in a branch, by the least key that the leaf may have.
    BranchEntry {
        table: TableId,
        branch: u32,
        low: Key,
        child: u32,
    },
    /// The row in its slot, or none.
    RowChange {
        table: TableId,
        key: Key,
        place: Place,
        after: Option<Value>,
    },
}

/// Where an action goes on from one of its pages.
#[derive(Clone, Copy, Debug)]
pub enum Look {
    /// This page is met next. `place` is what the first page leads to, and goes with the later looks: the slot to be
    /// given, or the page to be split off, with slot 0.
    Next { page: PageId, place: Option<Place> },
    /// All pages are met, and the change is needed.
    Draw,
    /// The change isn't needed any more.
    Done,
    /// The key lies further to the right: all begins anew with this action.
    Anew(Action),
    /// The branch is full: it is split first, and then the wanted action begins anew.
    Split(Action),
    /// The heap has this many pages, all that it may have, and no slot is left.
    Full { pages: u32 },
    /// The field at this offset of the page can't stand there.
    Damaged { at: u32 },
}

/// What a change of a row comes to.
#[derive(Clone, Copy, Debug)]
pub enum RowPlan {
    /// The change, with the row before it.
    Change(RowChange),
    /// The field at this offset of the page can't stand there.
    Fault { at: u32 },
}
