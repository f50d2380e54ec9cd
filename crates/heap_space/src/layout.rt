//! Where the fields of a heap's pages begin.

/// The number of the last page of rows, in the header page.
pub const LAST_PAGE_AT: u16 = 32;

/// How many slots of the last page are given, in the header page.
pub const GIVEN_AT: u16 = 36;

/// How many slots of a page are given, in the header of a page of rows.
pub const COUNT_AT: u16 = 26;

/// How many bytes a slot has.
pub const SLOT_SIZE: usize = 128;

// The fields of a slot.

pub const STATE_AT: usize = 0;

pub const LENGTH_AT: usize = 1;

pub const KEY_AT: usize = 8;

pub const VALUE_AT: usize = 16;

// The states of a slot.

pub const NEVER: u8 = 0;

pub const ABSENT: u8 = 1;

pub const PRESENT: u8 = 2;
