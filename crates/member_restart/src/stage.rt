use ds_base::{MemberId, Volume};

/// Where a restart stands.
#[derive(Clone, Copy, Debug)]
pub enum Stage {
    /// The own log is read.
    ReadLog,
    CutTail,
    /// The retained locks are listed.
    List,
    /// A retained page of an index is read, so that its rank is learned.
    Rank,
    /// The next retained page is read, in the order of page writes.
    Recover,
    RecoverWrite,
    RecoverPurge,
    /// A lock is freed that no open transaction needs.
    SweepPurge,
    /// The Ended record of a transaction without changes goes to the log.
    EndedAppend,
    /// The lock of the page of the next change is negotiated.
    Lock,
    /// The status of the member is asked that retains the page.
    LockStatus,
    UndoFill,
    UndoDraw,
    UndoAppend,
    UndoWrite,
    UndoRelease,
    /// A lock is freed that the transaction needed.
    TranPurge,
    Unregister,
    /// The member may come up.
    Restarted,
}

/// How a restart has ended.
#[derive(Clone, Copy, Debug, PartialEq, Eq)]
pub enum Ended {
    /// All is done.
    Done,
    /// Open transactions are left, which wait for the restart of this member.
    Waits { by: MemberId },
    /// A disk call failed.
    Failed,
    /// The byte at this offset can't stand there.
    Damaged { volume: Volume, at: u64 },
}
