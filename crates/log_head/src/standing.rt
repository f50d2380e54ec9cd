/// How far a log can be read on.
#[derive(Clone, Copy, Debug, PartialEq, Eq)]
pub enum Standing {
    /// A whole record is in hand.
    Ready,
    /// No whole record is in hand, and so many of the log's bytes are wanted, from this one on.
    Wants { at: u64, count: u32 },
    /// The field of a record that begins at this byte of the log isn't allowed.
    Bad { at: u64 },
    /// All bytes are in hand, and those from this one on are no whole record.
    Ends { at: u64 },
}
