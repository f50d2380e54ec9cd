/// What the search for the last checkpoint of a log has come to.
#[derive(Clone, Copy, Debug, PartialEq, Eq)]
pub enum Found {
    /// So many bytes of the log are wanted, from this one on.
    Wants { at: u64, count: u32 },
    /// The last checkpoint begins at this byte, and says that the log is read from that offset on.
    At { at: u64, offset: u64 },
    /// No record is a checkpoint.
    Missing,
    /// The bytes before the end aren't whole records.
    Broken,
}
