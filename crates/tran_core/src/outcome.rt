//! What comes of a page that was read.

use crate::stage::Step;

/// What comes of a page that was read.
#[derive(Clone, Copy)]
pub enum Outcome {
    /// The operation goes on.
    Go { step: Step },
    /// The table has no such row.
    Nothing,
    /// A scan reads the rows of this leaf up to the key `high`.
    Collect { high: u64 },
    /// The field at this offset can't stand there.
    Damaged { at: u16 },
}
