//! Choice 22: postponed rollbacks.

use ds_base::{Lrsn, PageId};
use lock_names::Name;
use plock_negotiate::Negotiation;

/// A rollback that met a page which a failed member retained.
#[derive(Clone, Copy, Debug, PartialEq, Eq)]
pub struct Rollback {
    /// The number of its transaction's first record in the log.
    pub id: Lrsn,
    /// The member's bell at its last try.
    pub tried: u64,
}

/// How far the rollback is that is tried.
#[derive(Clone, Copy, Debug)]
pub enum RetryState {
    /// None is tried.
    None,
    /// It waits until choice 18 gives it a frame for the page of its newest change.
    Frame {
        page: PageId,
    },
    /// The page's lock is negotiated, while choice 18 has no action in hand. Its frame is pinned.
    Lock {
        page: PageId,
        frame: u16,
        negotiation: Negotiation,
    },
    /// It waits until choice 18 has taken the change back. The frame stays pinned.
    Action {
        frame: u16,
    },
    /// Its Ended record waits in the log buffer, which is to be appended.
    Force,
    /// The changed pages of its page sets are to be written.
    Writes,
    /// Its locks are to be given up, after the purge of this name.
    Release {
        purge: Option<Name>,
    },
}
