use ds_base::{MemberId, Volume};
use list_structure::MemberStatus;
use lock_names::Name;

/// What an event of a restart came to, without the bytes of pages.
#[derive(Clone, Copy, Debug, PartialEq, Eq)]
pub enum RestartTold {
    /// Nothing was sent, or the reply tells nothing.
    Stepped,
    // ---- the own log
    /// More of it is to be read.
    LogBlock,
    /// It is read whole.
    LogWhole,
    TailCut,
    // ---- retained locks
    Record(Name),
    /// All are known.
    NoRecord,
    Purged,
    // ---- the page in hand
    /// It is registered, and is to be filled from the disk.
    ToFill,
    /// It has the disk's bytes.
    Filled,
    Invalid,
    /// Its bit is set in this event. A retained page is brought forward.
    Ready,
    Written,
    Lost,
    CacheFull,
    // ---- the page's lock
    Granted,
    /// A failed member's lock is in the way.
    Retained { by: MemberId },
    /// There is no room for another record of a lock.
    RecordsFull,
    /// Members have interest in the name's entry: bit `m - 1` stands for member m.
    Contention { share: u32, exclusive: u32 },
    /// The entry changed since the others were asked.
    Moved,
    /// `open`: one of those asked hasn't answered yet; `emptied`: one is to be asked again.
    Cells { open: bool, emptied: bool },
    Status(MemberStatus),
    Released,
    // ---- log records
    /// A change was taken back.
    Undone,
    /// The copy in hand isn't valid any more, and nothing was drawn.
    Stale,
    /// The log buffer stands in the log.
    Forced,
    // ---- ends
    Up,
    /// The disk call failed.
    Failed,
    /// A byte can't stand here.
    Damaged { volume: Volume, at: u64 },
}
