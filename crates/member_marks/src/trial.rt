use ds_base::{MemberId, TranId};
use lock_names::Mode;

/// What the trial of a lock at home came to.
#[derive(Clone, Copy, Debug, PartialEq, Eq)]
pub enum Trial {
    /// The transaction has the lock now.
    Have,
    /// The group is to be asked, in this mode.
    ToObtain(Mode),
    /// This transaction of the member is in the way.
    Conflict(TranId),
    /// A rollback is in the way that waits for this member.
    Postponed(MemberId),
    /// There was no memory for the claim.
    NoMemory,
    /// The slot's transaction doesn't go forward, or the name isn't that of a table space or row.
    NotForward,
}
