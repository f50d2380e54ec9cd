//! What turns and looks answer.

/// What a look finds.
#[derive(Clone, Copy, Debug, PartialEq, Eq)]
pub enum Look {
    /// The event with this number can be run.
    Ready(u64),
    /// None can be run before another caller's event.
    NotYet,
    /// None will ever be run again.
    Over,
}

/// What a turn came to.
#[derive(Clone, Copy, Debug, PartialEq, Eq)]
pub enum Turned {
    /// The event was run, and stands in the journal at this place, counted from 0.
    Ran { place: u64 },
    /// Memory ran out in this turn, or in one before it.
    NoMemory,
}
