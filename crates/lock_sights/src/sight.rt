use ds_base::{MemberId, TranId};
use ds_model::Name;
use lock_names::Mode;
use member_trans::Owner;

/// A claim of a lock, by its transaction and that one's place in its member, in its mode.
#[derive(Clone, Copy, Debug, PartialEq, Eq)]
pub struct Grip {
    pub tran: TranId,
    pub owner: Owner,
    pub mode: Mode,
    /// The event from which on it stood so; 0 before that is known.
    pub since: u64,
}

/// What was in question.
#[derive(Clone, Copy, Debug, PartialEq, Eq)]
pub enum Matter {
    /// The transaction wanted this lock, in this mode.
    Lock { name: Name, mode: Mode },
    /// It awaited this flag, which that transaction was to raise.
    Flag { flag: u8, raiser: TranId },
    /// This member failed, whose lock of the name stood in the transaction's way from then on.
    Failure { member: MemberId, name: Name },
}

/// What was seen of a transaction at an event, with one claim that was in its way, if there was one.
#[derive(Clone, Copy, Debug, PartialEq, Eq)]
pub struct Sight {
    pub place: u64,
    pub tran: TranId,
    pub matter: Matter,
    pub grip: Option<Grip>,
}
