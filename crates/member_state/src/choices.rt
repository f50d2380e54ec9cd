//! The choices of a member, and how each stands.

/// The member's own duty: it is done with the phase.
pub const DUTY: u64 = 0;

/// Queries of other members. The choices before it, from 1 on, are the seats of the agents.
pub const QUERY: u64 = 17;

/// Services and the page action.
pub const PAGES: u64 = 18;

pub const CASTOUT: u64 = 19;

pub const REBUILD: u64 = 20;

/// The look for a cycle of waits.
pub const CYCLES: u64 = 21;

/// Postponed rollbacks.
pub const RETRY: u64 = 22;

/// How many choices there are.
pub const CHOICES: usize = 23;

/// How a choice stands.
#[derive(Clone, Copy, Debug, PartialEq, Eq)]
pub enum Standing {
    Ready,
    /// Another choice, or a new phase, makes it ready.
    Idle,
    /// It waits until the member's bell is above this value. The end of the wait is an event of its own.
    Until(u64),
}

impl Standing {
    /// Whether the choice may take an event while the bell has this value.
    pub fn is_ready(self, bell: u64) -> bool {
        match self {
            Standing::Ready => true,
            Standing::Idle => false,
            Standing::Until(least) => least < bell,
        }
    }
}

/// A set of choices.
#[derive(Clone, Copy, Debug, PartialEq, Eq)]
pub struct ChoiceMask {
    bits: u32,
}

fn bit(choice: u64) -> u32 {
    if choice < 32 { 1 << choice } else { 0 }
}

impl ChoiceMask {
    pub fn new() -> ChoiceMask {
        ChoiceMask { bits: 0 }
    }

    pub fn insert(&mut self, choice: u64) {
        self.bits |= bit(choice);
    }

    pub fn remove(&mut self, choice: u64) {
        self.bits &= !bit(choice);
    }

    pub fn contains(self, choice: u64) -> bool {
        self.bits & bit(choice) != 0
    }

    pub fn is_empty(self) -> bool {
        self.bits == 0
    }

    /// Bit `c` stands for choice c.
    pub fn bits(self) -> u32 {
        self.bits
    }
}
