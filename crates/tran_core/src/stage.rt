//! How far a transaction has come.

use ds_base::{Key, Place, TableId, Value};
use index_leaf::Entry;

/// What an operation does with the rows of a table.
#[derive(Clone, Copy)]
pub enum Aim {
    Get,
    /// Reads a row that the transaction may change later.
    Getu,
    Put { value: Value },
    Del,
    /// Reads all rows up to the key `high`.
    Scan { high: Key },
}

/// An operation on a table. For a scan, `key` is the least key that is looked for.
#[derive(Clone, Copy)]
pub struct Task {
    pub table: TableId,
    pub key: Key,
    pub aim: Aim,
}

/// A level of the index.
#[derive(Clone, Copy, PartialEq, Eq)]
pub enum Level {
    Branch,
    Leaf,
}

/// A leaf where a scan goes on, and the least key that it may have.
#[derive(Clone, Copy, PartialEq, Eq)]
pub struct NextLeaf {
    pub page: u32,
    pub key: Key,
}

/// A page that is read, and what for.
#[derive(Clone, Copy)]
pub enum Reading {
    /// A page of the index, in search of a key. `branch` is the last branch on the way.
    Index {
        level: Level,
        page: u32,
        branch: u32,
        key: Key,
    },
    /// The heap page of the key's row.
    Slot {
        place: Place,
    },
    /// The heap's header page, before a slot is given.
    Header {
        leaf: u32,
    },
    /// A leaf that was split, for the page to its right.
    Halves {
        left: u32,
        branch: u32,
    },
    /// The heap page of a row of a scan.
    Entry {
        entry: Entry,
        next: Option<NextLeaf>,
    },
}

/// A change of pages.
#[derive(Clone, Copy)]
pub enum Update {
    FormatIndex,
    FormatHeap,
    GiveSlot { leaf: u32 },
    Split { left: u32, branch: u32 },
    BranchEntry { branch: u32, low: Key, child: u32 },
    /// Changes the row in this slot, which is `back` before.
    RowChange { place: Place, back: Option<Value> },
}

/// What an operation on a table does next.
#[derive(Clone, Copy)]
pub enum Step {
    /// Locks the table space.
    Space,
    /// Locks the row.
    Row,
    Read { reading: Reading },
    Change { update: Update },
}

/// What a transaction does next.
#[derive(Clone, Copy)]
pub enum Stage {
    Work { task: Task, step: Step },
    Raise { flag: u8 },
    Await { flag: u8 },
    LoseCache,
    Commit,
    /// Its changes are undone, the last first.
    Undo,
    Ended,
}

/// A row change that was made, and what the row was before it.
#[derive(Clone, Copy)]
pub struct Undone {
    pub table: TableId,
    pub key: Key,
    pub place: Place,
    pub back: Option<Value>,
}
