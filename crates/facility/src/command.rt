use ds_base::{Lrsn, MemberId, PageId, TranId};
use list_structure::{Asker, CellAnswer, MemberStatus, Query};
use lock_names::{Interest, Mode, Name};

/// Frames of a member, by their indexes: the first `count` of the three, 3 at most.
#[derive(Clone, Copy, Debug, PartialEq, Eq)]
pub struct Indexes {
    pub count: u8,
    pub at: [u16; 3],
}

/// A command that a member gives to the coupling facility.
#[derive(Clone, Copy, Debug, PartialEq, Eq)]
pub enum Command {
    // ---- the lock structure
    /// Asks for a lock.
    Obtain {
        name: Name,
        mode: Mode,
    },
    /// Asks for a lock about which the other members were asked, in the cells of this slot.
    Grant {
        slot: u8,
        name: Name,
        mode: Mode,
    },
    /// Gives up a lock; the member keeps this interest in the name's entry.
    Release {
        name: Name,
        keeps: Interest,
    },
    /// Frees a retained record.
    Purge {
        name: Name,
    },
    /// Asks for the retained record of this number, from 0.
    RetainedAt {
        n: u32,
    },
    // ---- the cache structure
    /// Registers a page with a frame, and reads it if it is there.
    Read {
        page: PageId,
        index: u16,
    },
    /// Writes a changed page, and invalidates all other copies of it.
    Write {
        page: PageId,
        index: u16,
    },
    /// Drops the registration of a frame.
    Unregister {
        index: u16,
    },
    /// Asks whether a frame is still valid.
    Test {
        index: u16,
    },
    /// Takes the castout lock of a changed page, and reads it.
    CastoutRead {
        page: PageId,
    },
    /// Frees the castout lock of a page that was written to disk.
    CastoutDone {
        page: PageId,
    },
    /// Asks for the next changed page, by page set and number.
    NextChanged {
        after: Option<PageId>,
    },
    /// The structure is lost with all that it holds.
    Lose,
    /// What was lost is brought back from the logs.
    Rebuilt,
    // ---- the list structure
    /// Asks a member whether a lock is in the way of its own.
    Ask {
        slot: u8,
        to: MemberId,
        name: Name,
        mode: Mode,
    },
    /// Takes the next query to this member, past that of an asker.
    Take {
        after: Option<Asker>,
    },
    /// Answers a query. `event` is the place of this event in the journal.
    Answer {
        asker: Asker,
        name: Name,
        mode: Mode,
        answer: CellAnswer,
        event: u64,
    },
    /// Reads the cells of a slot.
    Answers {
        slot: u8,
    },
    /// A transaction waits for another: for its lock, or for this flag where it isn't 0.
    Wait {
        tran: TranId,
        holder: TranId,
        flag: u8,
    },
    /// A transaction waits no more.
    Unwait {
        tran: TranId,
    },
    /// Asks for all who wait.
    Waits,
    /// A transaction has ended.
    End {
        tran: TranId,
    },
    /// Raises a flag.
    Raise {
        flag: u8,
    },
    /// Asks for a flag.
    Flag {
        flag: u8,
    },
    SetStatus {
        status: MemberStatus,
    },
    Status {
        member: MemberId,
    },
    /// Claims the rebuild of the cache structure.
    Claim,
    Unclaim,
    /// The member is done with the phase.
    PhaseDone,
    // ---- the counter
    /// Draws a number for a log record, if the bits of these frames are set.
    Draw {
        indexes: Indexes,
    },
    /// The same for a compensation, for which numbers past the limit may be used.
    DrawUndo {
        indexes: Indexes,
    },
}

/// What the coupling facility answers to a command.
#[derive(Clone, Copy, Debug, PartialEq, Eq)]
pub enum Reply {
    Granted {
        version: u64,
    },
    Retained {
        by: MemberId,
    },
    RecordsFull {
        limit: u32,
    },
    /// Other members have interest in the entry: bit `m - 1` of a mask stands for member m.
    Contention {
        share: u32,
        exclusive: u32,
        version: u64,
    },
    Moved {
        version: u64,
    },
    RetainedLock {
        name: Name,
        mode: Mode,
    },
    Done,
    Nothing,
    Found,
    NoData,
    CacheFull,
    Lost,
    Written,
    Valid,
    Invalid,
    Taken,
    NotChanged,
    Locked {
        by: MemberId,
    },
    NotHeld,
    ChangedPage {
        page: PageId,
    },
    Query {
        query: Query,
    },
    Gone,
    /// The cells are read by `Facility::answers`.
    Cells,
    /// The pairs are read by `Facility::waits`.
    Waits,
    Raised,
    NotRaised,
    Status {
        status: MemberStatus,
    },
    NotLost,
    ClaimTaken {
        by: MemberId,
    },
    Claimed,
    Drawn {
        lrsn: Lrsn,
    },
    Stale {
        index: u16,
    },
    LrsnEnd {
        at: Lrsn,
    },
}
