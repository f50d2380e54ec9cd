use ds_base::{MemberId, PageId};
use restart_plan::Tail;

/// Which call of the disk is made next.
#[derive(Clone, Copy, Debug, PartialEq, Eq)]
pub enum Stage {
    /// The length or a block of the log that is read.
    ReadLog,
    CutTail(Tail),
    /// A page that the logs name.
    RedoRead(PageId),
    /// The page was brought forward.
    RedoWrite(PageId),
    /// The Ended record of an open transaction of which nothing is to be undone.
    CloseAppend(MemberId),
    /// The page of the greatest open change.
    UndoRead(PageId),
    /// The compensation, and the Ended record where it was the transaction's last one.
    UndoAppend { member: MemberId, page: PageId },
    UndoWrite(PageId),
    /// A page of a page set that is looked through for pages of version 1.
    RenewRead(PageId),
    RenewWrite(PageId),
    /// The Checkpoint and the RestartEnd of a log.
    EndAppend(MemberId),
    /// All is done.
    End,
}
