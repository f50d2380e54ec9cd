/// The slots of a page.
pub const SLOTS: u16 = 31;

/// The bytes of a page.
pub const PAGE_SIZE: usize = 4096;

/// The page sets of a group are numbered from 1 to this.
pub const PAGE_SETS: u16 = 128;

/// The most patches of a record.
pub const PATCHES_LIMIT: usize = 12;

/// The most bytes of a patch.
pub const PATCH_LIMIT: usize = 4064;

/// The bytes of a record without a body, in version 1.
pub const SHORTEST: usize = 22;

/// The most bytes that a record of any kind may have.
pub const LONGEST: usize = 16_384;
