//! Claims and the answers about them.

ghost use Rattle.std.specs.Prelude.{◌≡◌};
ghost use Rattle.lock_manager.specs.Claims.{joined, is_covered, is_in_way, same_class};

use ds_base::{Lrsn, MemberId};
use ds_model::Name;
use lock_names::{Class, Mode, compatible, covers, join};

/// A lock that an owner holds.
#[derive(Clone, Copy, Debug, PartialEq, Eq)]
pub struct Claim {
    pub name: Name,
    pub mode: Mode,
}

/// A rollback that was postponed, by the transaction's first number in the log, and the member that it waits for.
#[derive(Clone, Copy, Debug, PartialEq, Eq)]
pub struct Rollback {
    pub id: Lrsn,
    pub by: MemberId,
}

/// What an agent that needs a lock is told.
#[derive(Clone, Copy, Debug, PartialEq, Eq)]
pub enum Ask {
    /// It has the lock already.
    Have,
    /// The agent of this slot holds one that is in the way.
    Conflict { by: u8 },
    /// Only postponed rollbacks hold such locks, and the first of them waits for this member.
    Postponed { member: MemberId },
    /// The member holds the name in a mode that covers it.
    Local,
    /// The group is to be asked, in this mode.
    Facility { mode: Mode },
}

/// What another member that needs a lock is told.
#[derive(Clone, Copy, Debug, PartialEq, Eq)]
pub enum LockAnswer {
    /// The agent of this slot holds one that is in the way.
    Conflict { by: u8 },
    /// Only postponed rollbacks hold such locks, and the first of them waits for this member.
    Postponed { member: MemberId },
    /// Nothing here is in the way.
    Clean,
}

/// The mode of an owner that holds one and needs another.
pub fn joined(held: Option<Mode>, mode: Mode) -> Mode
    ensures { result ≡ joined held mode }
{
    match held {
        Some(held) => join(held, mode),
        None => mode,
    }
}

/// Whether what is held covers the mode.
pub fn is_covered(held: Option<Mode>, mode: Mode) -> bool
    ensures { result ≡ is_covered held mode }
{
    match held {
        Some(held) => covers(held, mode),
        None => false,
    }
}

/// Whether what another owner holds is in the way of the mode.
pub fn is_in_the_way(held: Option<Mode>, mode: Mode) -> bool
    ensures { result ≡ is_in_way held mode }
{
    match held {
        Some(held) => !compatible(held, mode),
        None => false,
    }
}

/// Whether both are the same class.
#[tactic(auto, unfolding(crate::specs::Claims::same_class))]
pub fn is_class(a: Class, b: Class) -> bool
    ensures { result ≡ same_class a b }
{
    match (a, b) {
        (Class::Share, Class::Share) | (Class::Exclusive, Class::Exclusive) => true,
        _ => false,
    }
}
