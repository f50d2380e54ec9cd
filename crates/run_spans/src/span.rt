use crate::latest::At;

/// How the events of a transaction came to their end.
#[derive(Clone, Copy, Debug, PartialEq, Eq)]
pub enum End {
    /// They go on.
    Open,
    /// With a stable commit.
    Committed,
    /// Without one.
    Ended,
    /// Its member failed.
    Failed,
}

/// The events of one transaction, by the places of the first and the last. That of its commit record is 0 where it drew none.
#[derive(Clone, Copy, Debug)]
pub struct Span {
    pub member: u8,
    pub choice: u64,
    pub first: u64,
    pub last: u64,
    pub commit: u64,
    pub end: End,
    /// The place where its wait began, 0 where it doesn't wait.
    pub waits_from: u64,
    /// The latest end, release, raise or failure of others when it last went on.
    pub rung: At,
}

/// A wait of a transaction, given by the number of its span, and the event of another one that came last before it was over.
#[derive(Clone, Copy, Debug)]
pub struct Wait {
    pub span: usize,
    pub member: u8,
    pub from: u64,
    pub to: u64,
    pub rung: At,
}

/// A write to the cache, and the next read by another member that found something there.
#[derive(Clone, Copy, Debug)]
pub struct Passage {
    pub write: At,
    pub read: At,
}
