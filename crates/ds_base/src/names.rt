//! Names of pages, places and transactions, and the sizes of a group.

ghost use Rattle.std.specs.Prelude.{◌≡◌};
ghost use Rattle.ds_base.specs.Pages.{same_page, heap_set, index_set, heap_page, index_page};

use crate::{MemberId, TableId};

/// A page, by its page set and its number there. Table `t` has the page sets `2t - 1` (heap) and `2t` (index).
#[derive(Clone, Copy, Debug, PartialEq, Eq, PartialOrd, Ord)]
pub struct PageId {
    pub set: u16,
    pub number: u32,
}

impl PageId {
    /// Whether both are the same page.
    pub fn is_same(self, other: PageId) -> bool
        ensures { result ≡ same_page self other }
    {
        self.set == other.set && self.number == other.number
    }
}

impl TableId {
    /// The page set of the table's heap.
    pub fn heap_set(self) -> u16
        ensures { result ≡ heap_set self }
    {
        2 * self.number() as u16 - 1
    }

    /// The page set of the table's index.
    pub fn index_set(self) -> u16
        ensures { result ≡ index_set self }
    {
        2 * self.number() as u16
    }

    /// A page of the table's heap.
    pub fn heap_page(self, number: u32) -> PageId
        ensures { result ≡ heap_page self number }
    {
        PageId {
            set: self.heap_set(),
            number,
        }
    }

    /// A page of the table's index.
    pub fn index_page(self, number: u32) -> PageId
        ensures { result ≡ index_page self number }
    {
        PageId {
            set: self.index_set(),
            number,
        }
    }
}

/// Where a row lies in its table's heap: a page number, from 1, and a slot of that page, below 31.
#[derive(Clone, Copy, Debug, PartialEq, Eq)]
pub struct Place {
    pub page: u32,
    pub slot: u16,
}

/// A transaction, by its member and its number in the script, from 1.
#[derive(Clone, Copy, Debug, PartialEq, Eq)]
pub struct TranId {
    pub member: MemberId,
    pub number: u32,
}

/// A part of the disk that can be damaged.
#[derive(Clone, Copy, Debug, PartialEq, Eq)]
pub enum Volume {
    Log(MemberId),
    Page(PageId),
}

/// The sizes of a group: its members, agents per member, entries of the lock table, lock records,
/// entries of the cache, frames per pool and heap pages per table.
#[derive(Clone, Copy, Debug, PartialEq, Eq)]
pub struct Sizes {
    pub members: u8,
    pub agents: u8,
    pub locks: u32,
    pub records: u32,
    pub cache: u32,
    pub pool: u16,
    pub pages: u32,
}
