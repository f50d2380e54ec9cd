use ds_base::{PageId, TranId, Volume};
use facility::{Command, MemberStatus, Query, Reply};
use lock_names::Name;
use page_format::Page;

/// What an event came to, as the policy is told.
///
/// A refusal isn't among these: it stands as the slot's offer with the marks of this event, and `Conflict` and `Refused` say
/// that it does.
#[derive(Drop)]
pub enum Outcome<'a> {
    /// Nothing was sent, or the reply tells nothing.
    Stepped,
    // ---- locks
    /// The claim is entered.
    Granted,
    /// This transaction has a claim in the way.
    Conflict { by: TranId },
    /// Something else is in the way for good.
    Refused,
    /// Members have interest in the name's entry: bit `m - 1` stands for member m.
    Contention { share: u32, exclusive: u32 },
    /// The entry changed since the others were asked.
    Moved,
    /// None of those asked has something in the way. `open`: one hasn't answered yet; `emptied`: the cell of one is empty.
    Cells { open: bool, emptied: bool },
    Query(Query),
    NoQuery,
    Status(MemberStatus),
    Raised(bool),
    /// The transaction of this slot is the highest of a cycle of waits, and its refusal stands.
    Deadlock { slot: u8 },
    NoCycle,
    /// A claim was given up: that of a transaction on this name, or that of a page.
    Released { name: Option<Name> },
    /// A retained record is gone.
    Purged,
    /// The transaction is gone from its slot, or the rollback is.
    Ended,
    // ---- pages
    /// The frame has its bytes.
    Filled,
    /// The frame is registered, and is to be filled from the disk.
    ToFill,
    Invalid,
    /// The page is valid in this event.
    Valid { page: &'a Page },
    Written,
    Lost,
    CacheFull,
    // ---- log records
    Drawn,
    /// The copy in this frame isn't valid any more, and nothing was drawn.
    Stale { frame: u16 },
    /// The log buffer stands in the log.
    Forced,
    // ---- castout
    ChangedPage(PageId),
    NoChangedPage,
    Taken,
    NotTaken,
    CastoutWritten,
    CastoutOver,
    // ---- ends
    /// The disk call failed.
    Failed,
    /// A byte can't stand here.
    Damaged { volume: Volume, at: u64 },
}

/// The event in hand: its number in the journal, and how often the member's bell has rung, after its command.
#[derive(Clone, Copy, Debug, PartialEq, Eq)]
pub struct Event {
    pub place: u64,
    pub bell: u64,
}

/// What the group sees for a member before an event: its bell, whether a query waits for its answer, whether more than half
/// of the cache's entries are changed, whether the cache is lost, whether the member is done with the phase, and whether
/// one of its postponed rollbacks waits for a member that is up or restarting.
#[derive(Clone, Copy, Debug, PartialEq, Eq)]
pub struct Look {
    pub bell: u64,
    pub asked: bool,
    pub is_half: bool,
    pub is_lost: bool,
    pub is_done: bool,
    pub waits_for_live: bool,
}

/// What went out in an event.
#[derive(Clone, Copy, Debug, PartialEq, Eq)]
pub enum Sent {
    None,
    Command(Command),
    AppendLog,
    ReadPage(PageId),
    WritePage(PageId),
}

/// What came back: `Done` and `Failed` from the disk.
#[derive(Clone, Copy, Debug, PartialEq, Eq)]
pub enum Answered {
    None,
    Reply(Reply),
    Done,
    Failed,
}
