//! Members that look for each other in the gate, which two threads can alone.
use ds_base::MemberId;
use group_run::Gate;
use std::sync::atomic::{AtomicU64, Ordering};

/// How often a member looks for the other's flag.
const LOOKS: u64 = 1 << 30;

/// The first member's flag and the second one's, and how many have not found the other's.
#[derive(Drop)]
pub struct Meeting {
    first: AtomicU64,
    second: AtomicU64,
    missed: AtomicU64,
}

impl Meeting {
    pub fn new() -> Meeting {
        Meeting {
            first: AtomicU64::new(0),
            second: AtomicU64::new(0),
            missed: AtomicU64::new(0),
        }
    }

    /// How many have not found the other's flag.
    pub fn missed(&self) -> u64 {
        self.missed.load(Ordering::SeqCst)
    }

    /// Whether both flags were raised.
    pub fn is_held(&self) -> bool {
        self.first.load(Ordering::SeqCst) == 1 && self.second.load(Ordering::SeqCst) == 1
    }

    // Raises a flag, and looks for the other.
    fn meet(&self, mine: &AtomicU64, theirs: &AtomicU64) {
        mine.store(1, Ordering::SeqCst);
        for _ in 0..LOOKS {
            if theirs.load(Ordering::SeqCst) == 1 {
                return;
            }
        }
        self.missed.fetch_add(1, Ordering::SeqCst);
    }
}

impl Gate for Meeting {
    fn pass(&self, member: MemberId, command_number: u64) {
        match (member.number(), command_number) {
            (1, 1) => self.meet(&self.first, &self.second),
            (2, 10) => self.meet(&self.second, &self.first),
            _ => {}
        }
    }
}
