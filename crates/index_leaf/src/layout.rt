//! Where the fields of a branch or leaf page begin, and what a field of an entry is.

use ds_base::{Key, Place};

pub const KIND_AT: usize = 4;

pub const SET_AT: usize = 6;

pub const NUMBER_AT: usize = 8;

pub const COUNT_AT: usize = 26;

pub const LOW_AT: usize = 32;

pub const HIGH_AT: usize = 40;

pub const HAS_HIGH_AT: usize = 48;

pub const RIGHT_AT: usize = 52;

pub const FIRST_ENTRY_AT: usize = 64;

/// Where the number of the next free page begins in the header of an index.
pub const NEXT_AT: usize = 32;

/// The number of the first branch, at which every search begins.
pub const ROOT: u32 = 1;

/// The number of the first leaf.
pub const FIRST_LEAF: u32 = 2;

/// How many bytes an entry has.
pub const ENTRY_WIDTH: usize = 16;

/// An entry of a page of the index.
#[derive(Clone, Copy, Debug, PartialEq, Eq)]
pub struct Entry {
    pub key: Key,
    /// Where the row lies, or in a branch the page of the index and slot 0.
    pub place: Place,
}
