use ds_base::{MemberId, PageId, TableId, TranId};
use facility::Asker;
use lock_names::{Mode, Name};
use member_trans::Owner;
use page_plans::Action;

/// Frames of a member, by their numbers: the first `count` of the three, 3 at most.
#[derive(Clone, Copy, Debug, PartialEq, Eq)]
pub struct Frames {
    pub count: u8,
    pub at: [u16; 3],
}

/// What a member wants of an event.
///
/// A slot is that of an agent, 1 to 16. An owner is whose need it is: where the name is that of a page or page set, the
/// member claims it for the owner, and else the owner does, and must be a slot.
#[derive(Clone, Copy, Debug)]
pub enum Intent {
    /// Nothing is sent: a wait has ended, or a free slot takes a transaction.
    Step,
    // ---- locks
    Obtain {
        owner: Owner,
        name: Name,
        mode: Mode,
    },
    /// Obtains a lock about which others were asked, in the cells of `cell_slot`.
    Grant {
        owner: Owner,
        name: Name,
        mode: Mode,
    },
    Ask {
        owner: Owner,
        to: MemberId,
        name: Name,
        mode: Mode,
    },
    /// Reads what was answered about this name and mode. Bit `m - 1` of `asked` stands for member m.
    Answers {
        owner: Owner,
        name: Name,
        mode: Mode,
        asked: u32,
    },
    Status {
        member: MemberId,
    },
    /// Takes the next query of another member, past that of an asker.
    Take {
        after: Option<Asker>,
    },
    /// Answers a query, as the claims say it.
    Answer {
        asker: Asker,
        name: Name,
        mode: Mode,
    },
    /// Gives up the next claim of a transaction that is over.
    ReleaseLock {
        owner: Owner,
    },
    ReleasePage {
        page: PageId,
    },
    /// Frees the retained record of a name that nobody claims any more.
    Purge {
        name: Name,
    },
    /// The owner's transaction ends, with the claims that it has left. Nothing is sent for one without a number.
    End {
        owner: Owner,
    },
    // ---- waits and flags
    /// The slot's transaction waits for another: for its lock, or for this flag where it isn't 0.
    Wait {
        slot: u8,
        holder: TranId,
        flag: u8,
    },
    Unwait {
        slot: u8,
    },
    /// Looks for a cycle of waits in which the transaction of one of these slots is the highest. Bit `s` stands for slot s.
    Waits {
        slots: u32,
    },
    Flag {
        flag: u8,
    },
    Raise {
        flag: u8,
    },
    /// The cache structure is lost.
    LoseCache,
    // ---- pages
    Read {
        frame: u16,
    },
    /// Fills a frame from the disk.
    ReadPage {
        frame: u16,
    },
    /// Asks whether the copy in a frame is valid. Where it is the header of this table's heap, in which the slot's action
    /// is to be given a place, and no place is left, that is a refusal.
    Test {
        frame: u16,
        slot: u8,
        gives: Option<TableId>,
    },
    WritePage {
        frame: u16,
    },
    Unregister {
        frame: u16,
    },
    // ---- log records
    Change {
        slot: u8,
        action: Action,
        frames: Frames,
    },
    /// Takes the newest change that stands back.
    Undo {
        owner: Owner,
        frame: u16,
    },
    Commit {
        slot: u8,
    },
    Append,
    // ---- castout
    NextChanged {
        after: Option<PageId>,
    },
    CastoutRead {
        page: PageId,
    },
    CastoutWrite,
    CastoutDone,
    // ---- phases
    PhaseDone,
}
