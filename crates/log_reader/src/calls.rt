use log_record::Log;

/// What is asked of a log on a disk.
#[derive(Clone, Copy, Debug, PartialEq, Eq)]
pub enum LogCall {
    /// Its length.
    Length,
    /// So many of its bytes, from this one on.
    Read { at: u64, count: u32 },
}

/// What the disk has answered.
#[derive(Clone, Copy, Debug, PartialEq, Eq)]
pub enum LogReply {
    Length(u64),
    /// So many bytes were read into the block; none where the log ends before.
    Count(usize),
}

/// What was read.
#[derive(Debug, Drop)]
pub enum LogRead {
    /// More is to be read.
    More,
    /// The whole log.
    Whole(Log),
    /// The field that begins at this byte of the log isn't allowed.
    Bad { at: u64 },
}
