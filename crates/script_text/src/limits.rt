/// The most bytes that the text of a script has.
pub const TEXT_LIMIT: usize = 4_194_304;

/// The most phases that a script has.
pub const PHASES_LIMIT: usize = 1024;

/// The most transactions that a script has.
pub const TRANS_LIMIT: u32 = 65_536;

/// The most operations that a transaction has.
pub const OPS_LIMIT: usize = 64;
