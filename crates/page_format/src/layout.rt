//! Where the fields of a page's header begin.

pub const MARK_AT: u16 = 0;

pub const KIND_AT: u16 = 4;

pub const VERSION_AT: u16 = 5;

/// The version in which pages are written.
pub const VERSION: u8 = 2;

/// The version in which they are read too, whose LRSN is shorter.
pub const OLD_VERSION: u8 = 1;

pub const SET_AT: u16 = 6;

pub const NUMBER_AT: u16 = 8;

pub const LRSN_AT: u16 = 16;

pub const COUNT_AT: u16 = 26;
