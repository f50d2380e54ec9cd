ghost use Rattle.std.specs.Prelude.{◌≡◌};
ghost use Rattle.restart_marks.specs.declared.intent.RestartFault.TheVariants as faults;

use ds_base::{Lrsn, MemberId, NoMemory, PageId};
use facility::Command;
use lock_names::Name;

/// What a restart wants of an event.
///
/// A transaction is named by its number in the log. Locks are those of the page of its newest change that stands.
#[derive(Clone, Copy, Debug)]
pub enum RestartIntent {
    /// Nothing is sent: a wait has ended.
    Step,
    // ---- the own log
    /// Reads on: the log's length first, then its bytes by blocks.
    ReadLog,
    /// Cuts what follows the whole records.
    CutTail,
    // ---- retained locks
    /// Asks for the next retained lock.
    RetainedAt,
    // ---- the page in hand
    Read,
    /// Fills it from the disk.
    ReadPage,
    /// Asks whether its copy is valid.
    Test,
    WritePage,
    /// Frees its retained lock.
    PurgePage,
    /// Frees the retained lock of a table space or row.
    Purge { name: Name },
    // ---- the log buffer
    Append,
    // ---- the lock of the page that is to be undone
    Obtain { id: Lrsn },
    Ask { id: Lrsn, to: MemberId },
    /// Reads what was answered. Bit `m - 1` of `asked` stands for member m.
    Answers { id: Lrsn, asked: u32 },
    Grant { id: Lrsn },
    Status { member: MemberId },
    /// Takes the newest change that stands back, in the page in hand.
    Undo { id: Lrsn },
    /// Gives the page's lock up.
    ReleasePage,
    // ---- ends
    /// Drops the registration of index 0.
    Unregister,
    /// The restart is over.
    Up,
}

/// What goes out in an event.
#[derive(Clone, Copy, Debug, PartialEq, Eq)]
pub enum RestartSent {
    None,
    Command(Command),
    LogLength,
    /// So many bytes of the own log, from this one on.
    ReadLog { at: u64, count: u32 },
    /// Keeps so many bytes of the own log.
    CutLog { length: u64 },
    AppendLog,
    ReadPage(PageId),
}

/// The test that an intent of a restart has failed.
#[derive(Clone, Copy, Debug, PartialEq, Eq)]
pub enum RestartTest {
    // ---- the own log
    /// It isn't read whole yet.
    NotRead,
    AlreadyRead,
    /// Nothing follows its whole records.
    NoTail,
    /// Something follows them.
    HasTail,
    // ---- retained locks
    /// Not all are known.
    NotListed,
    AlreadyListed,
    /// One of a page is left.
    PagesLeft,
    /// The lock isn't known as retained.
    NotRetained,
    /// An open transaction has changed it.
    StillNeeded,
    /// One is left that no rollback claims.
    SomeLeft,
    // ---- the page in hand
    NotPlaced,
    StillPlaced,
    NotRegistered,
    NotFilled,
    StillFilled,
    NotChanged,
    StillChanged,
    /// The number of its last change isn't stable.
    NotStable,
    /// Another retained page is written before it, or its place among them isn't known.
    NotFirst,
    /// It isn't brought forward.
    NotBrought,
    /// Another page is in hand.
    OtherPage,
    // ---- locks
    /// The lock of another page is claimed.
    PagesFull,
    NotClaimed,
    StillClaimed,
    // ---- transactions
    /// It isn't open, or none of its changes stands.
    NoneStands,
    /// One is open.
    StillOpen,
    // ---- the log buffer
    /// It has no room for the records.
    NoRoom,
    /// A number above the limit isn't stable yet.
    AboveLimit,
    NonePending,
    StillPending,
    /// An Ended record waits in it.
    StillEnding,
}

/// Why an event wasn't done: the intent was against a test, the facility's condition didn't hold, or memory was wanting.
#[derive(Clone, Copy, Debug, PartialEq, Eq)]
pub enum RestartFault {
    Unlawful(RestartTest),
    NotExecutable,
    NoMemory,
}

impl From<RestartTest> for RestartFault {
    ghost from_gives = { λ test e. e ≡ faults.Unlawful test };

    fn from(test: RestartTest) -> Self {
        RestartFault::Unlawful(test)
    }
}

impl From<NoMemory> for RestartFault {
    ghost from_gives = { λ _ e. e ≡ faults.NoMemory };

    fn from(_: NoMemory) -> Self {
        RestartFault::NoMemory
    }
}
