//! Where the member fails.

use crate::state::MemberState;
use ds_model::FailAt;

/// What the point at which a member fails in a phase is found by.
#[derive(Clone, Copy, Debug)]
pub struct Points {
    pub fail: Option<FailAt>,
    /// The member's events of the phase.
    pub events: u64,
    /// Its appends that decided a transaction.
    pub commits: u32,
    /// How many Commit records wait in the log buffer.
    pub drawn: u32,
}

impl Points {
    /// A phase begins.
    pub fn new(fail: Option<FailAt>) -> Points {
        Points {
            fail,
            events: 0,
            commits: 0,
            drawn: 0,
        }
    }

    /// An event of the member.
    pub fn count_event(&mut self) {
        self.events = self.events.saturating_add(1);
    }

    /// A Commit record was put.
    pub fn count_drawn(&mut self) {
        self.drawn = self.drawn.saturating_add(1);
    }

    /// The log buffer was appended.
    pub fn count_forced(&mut self) {
        if self.drawn > 0 {
            self.commits = self.commits.saturating_add(1);
        }
        self.drawn = 0;
    }
}

impl MemberState {
    fn raises(&self, flag: u8) -> bool {
        self.seats.iter().any(|seat| seat.raises(flag))
    }

    /// Whether the member fails in place of its next event.
    pub fn is_fail_due(&self) -> bool {
        let points = &self.points;
        match points.fail {
            None => false,
            Some(FailAt::Command(nth)) => points.events.saturating_add(1) == u64::from(nth),
            Some(FailAt::Commit(nth)) => {
                points.commits.saturating_add(1) == nth && points.drawn > 0
            }
            Some(FailAt::Committed(nth)) => points.commits >= nth,
            Some(FailAt::Raise(flag)) => self.raises(flag),
        }
    }
}
