//! What a transaction wants next, and how a want was met.

use ds_base::{Key, PageId, Place, TableId, Value};
use ds_model::{Name, Refusal};
use lock_names::Mode;
use page_format::Page;

/// A change of pages that is logged as one.
#[derive(Clone, Copy, Debug)]
pub enum Action<'a> {
    /// Makes the first pages of the table's index: its header, a branch and a leaf.
    FormatIndex {
        table: TableId,
    },
    /// Makes the header page of the table's heap.
    FormatHeap {
        table: TableId,
    },
    /// Gives the key the next slot of the heap, marked absent, and enters it in the leaf.
    GiveSlot {
        table: TableId,
        key: Key,
        leaf: u32,
    },
    /// Moves the upper half of a full leaf to a new page on its right.
    Split {
        table: TableId,
        left: u32,
    },
    /// Enters a leaf, and the least key that it may have, in a branch.
    BranchEntry {
        table: TableId,
        branch: u32,
        low: Key,
        child: u32,
    },
    /// Sets the row in its slot, or marks the slot absent.
    RowChange {
        table: TableId,
        key: Key,
        place: Place,
        after: Option<&'a Value>,
    },
}

/// What a transaction wants next.
#[derive(Clone, Copy, Debug)]
pub enum Want<'a> {
    /// A lock, in at least this mode.
    Lock {
        name: Name,
        mode: Mode,
    },
    /// The bytes of a page.
    ReadPage {
        id: PageId,
    },
    /// A change of pages. `Done` of a change of the index or of the heap's layout means that it was made or wasn't
    /// needed any more. `Done` of a row change means that it was made.
    Change {
        action: Action<'a>,
    },
    /// To be committed.
    Commit,
    /// That a row change of the transaction is undone: the row is again what it was before it.
    Undo {
        table: TableId,
        key: Key,
        place: Place,
        back: Option<&'a Value>,
    },
    /// A flag of the phase to be raised.
    Raise {
        flag: u8,
    },
    /// A flag of the phase to be waited for.
    Await {
        flag: u8,
    },
    /// The cache structure to be lost.
    LoseCache,
    /// Nothing any more: the transaction has ended.
    Ended,
}

/// How a want was met.
#[derive(Drop)]
pub enum Met<'a> {
    /// As it was wanted.
    Done,
    /// By the page that was to be read.
    Page(&'a Page),
    /// Not at all: the transaction is refused.
    Refused(Refusal),
}
