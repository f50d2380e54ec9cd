//! The seats of the agents: choices 1 to 16.

use crate::run::Work;
use ds_base::{PageId, TranId};
use lock_names::Name;
use plock_negotiate::Negotiation;
use tran_core::Agent;

/// What a seat is at.
#[derive(Clone, Copy, Debug)]
pub enum SeatState {
    /// It has no transaction. Ready where the part has one left; its event takes that.
    Free,
    /// The lock is negotiated.
    Lock { negotiation: Negotiation },
    /// Its pair with the holder is to be posted: for a lock, or for a flag where it isn't 0. Then it waits for the bell.
    Post { holder: TranId, flag: u8, bell: u64 },
    /// It waits for the bell, and begins anew: with the trial of its lock, or with its flag.
    Asleep,
    /// Its pairs are to be dropped.
    Unwait,
    /// It waits until choice 18 gives it a frame for this page.
    Frame { page: PageId },
    /// The page in this frame, which is pinned, is filled and tested.
    Read { frame: u16 },
    /// It waits until choice 18 has ended its page action.
    Action,
    Raise { flag: u8 },
    /// It looks whether the flag is raised.
    Flag { flag: u8 },
    /// The cache is to be lost.
    Lose,
    /// The number of its Commit record is to be drawn.
    CommitDraw,
    /// Its Commit or Ended record waits in the log buffer, which is to be appended.
    Force,
    /// The changed pages of its page sets are to be written.
    Writes,
    /// Its locks are to be given up, after the purge of this name.
    Release { purge: Option<Name> },
    /// Its rollback was postponed. Its number ends, and the seat is free.
    Leave,
}

/// The transactions for which a transaction waits, one for each of their members.
#[derive(Clone, Copy, Debug)]
pub struct Posted {
    holders: [Option<TranId>; 32],
    any: bool,
}

impl Posted {
    /// None.
    pub fn new() -> Posted {
        Posted {
            holders: [None; 32],
            any: false,
        }
    }

    pub fn is_empty(&self) -> bool {
        !self.any
    }

    pub fn contains(&self, holder: &TranId) -> bool {
        self.holders[holder.member.number() as usize - 1] == Some(*holder)
    }

    /// Notes the pair, in place of that with another transaction of the holder's member.
    pub fn insert(&mut self, holder: TranId) {
        self.holders[holder.member.number() as usize - 1] = Some(holder);
        self.any = true;
    }
}

/// An agent's slot, and what the policy keeps of the transaction in it.
#[derive(Drop)]
pub struct Seat {
    pub state: SeatState,
    pub agent: Option<Agent>,
    /// Whether the transaction waits at a conflict, or is refused.
    pub waits: bool,
    pub posted: Posted,
    /// What choice 18 is to do for it, while it waits for that.
    pub work: Work,
}

impl Seat {
    /// A seat without a transaction.
    pub fn free() -> Seat {
        Seat {
            state: SeatState::Free,
            agent: None,
            waits: false,
            posted: Posted::new(),
            work: Work::Compensate,
        }
    }

    /// A seat that is about to begin a transaction.
    pub fn new(agent: Agent, waits: bool) -> Seat {
        Seat {
            state: SeatState::Asleep,
            agent: Some(agent),
            waits,
            posted: Posted::new(),
            work: Work::Compensate,
        }
    }

    pub fn is_free(&self) -> bool {
        matches!(self.state, SeatState::Free)
    }

    pub fn is_forcing(&self) -> bool {
        matches!(self.state, SeatState::Force)
    }

    /// Whether it raises this flag in its next event.
    pub fn raises(&self, flag: u8) -> bool {
        match self.state {
            SeatState::Raise { flag: next } => next == flag,
            _ => false,
        }
    }
}
