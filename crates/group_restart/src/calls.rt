use ds_base::{Lrsn, MemberId, PageId, Volume};

/// A call of the disk.
#[derive(Clone, Copy, Debug, PartialEq, Eq)]
pub enum Call {
    LogLength(MemberId),
    /// So many bytes of the log at most, from this one on.
    ReadLog {
        member: MemberId,
        at: u64,
        count: u32,
    },
    /// Keeps so many bytes of the log.
    CutLog {
        member: MemberId,
        length: u64,
    },
    AppendLog(MemberId),
    ReadPage(PageId),
    WritePage(PageId),
}

/// Where a group restart stands.
#[derive(Clone, Copy, Debug, PartialEq, Eq)]
pub enum State {
    Going,
    /// All is done. The counter is the greatest number of the logs and of the pages that they name.
    Done { counter: Lrsn },
    /// The byte of a page or a log at this offset can't stand there.
    Damaged { volume: Volume, at: u64 },
    /// The call of the disk failed.
    Failed,
}
