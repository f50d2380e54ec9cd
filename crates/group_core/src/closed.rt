use ds_base::Volume;

/// What came of the group restart that closes the disk.
#[derive(Clone, Copy, Debug, PartialEq, Eq)]
pub enum Closed {
    Done,
    /// A call of the disk failed.
    Failed,
    /// The byte of a page or a log at this offset can't stand there.
    Damaged { volume: Volume, at: u64 },
    NoMemory,
    /// No call was made: the run has ended by damage, by want of memory, or by what may not be done.
    Unrun,
}
