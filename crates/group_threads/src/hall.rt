//! Where the threads of a phase wait for each other's events.
//!
//! Each round ends. A thread that wants the floor has it in time, since none keeps it for long, and where one does it is taken. Whoever is
//! the last to have nothing to do makes all look once more, or ends the round. As long as some haven't begun, or have left, nobody waits
//! without wanting the floor but for one who was in when all had begun, and each leaves behind so many events: so the calling thread comes
//! to those that haven't, and the round doesn't wait for those that have left.

use crate::floor::{Floor, asleep, change, go, is_wish, stand_up};
use crate::members::Members;
use ds_base::{MemberId, NoMemory};
use std::alloc::Global;
use std::hint;
use std::sync::Wait;
use std::sync::atomic::{AtomicU64, Ordering};
use std::time::Duration;

/// The round goes on.
const OPEN: u64 = 0;

/// Each thread returns: none has anything to do.
const QUIET: u64 = 1;

/// Nothing is taken any more in this phase.
const CLOSED: u64 = 2;

/// How often a thread looks for the floor before it sleeps.
const LOOKS: u64 = 4000;

/// How long a thread sleeps at most before it looks again.
const SLEEP_MILLIS: u64 = 20;

/// How often it sleeps so long before it takes the floor from one that doesn't go on.
const SLEEPS: u64 = 2;

/// Where the threads of a phase wait. Nothing that it says is relied on but for when a round ends.
#[derive(Drop)]
pub struct Hall {
    state: AtomicU64,
    /// 1 where there was an event since all threads were told to look last.
    has_run: AtomicU64,
    /// Whose thread takes events.
    floor: Floor,
}

impl Hall {
    pub fn new(alloc: Global, count: usize) -> Result<Hall, NoMemory> {
        Ok(Hall {
            state: AtomicU64::new(OPEN),
            has_run: AtomicU64::new(0),
            floor: Floor::new(alloc, count)?,
        })
    }

    /// A round begins. No thread is in.
    pub fn begin(&self) {
        self.state.store(OPEN, Ordering::SeqCst);
        self.has_run.store(0, Ordering::SeqCst);
        self.floor.clear();
    }

    // Whether the round has ended.
    fn is_over(&self) -> bool {
        self.state.load(Ordering::SeqCst) != OPEN
    }

    /// Whether nothing is taken any more in this phase.
    pub fn is_closed(&self) -> bool {
        self.state.load(Ordering::SeqCst) == CLOSED
    }

    /// The thread of the member with this number has had an event, which concerns these members: something may be ready of them that
    /// wasn't before.
    pub fn tell(&self, members: Members) {
        if self.has_run.load(Ordering::SeqCst) == 0 {
            self.has_run.store(1, Ordering::SeqCst);
        }
        if members.is_empty() {
            return;
        }
        for at in 0..self.floor.count() {
            let number = at.wrapping_add(1);
            if let Some(member) = MemberId::new(number) {
                if members.has(member) {
                    self.floor.want(number);
                }
            }
        }
    }

    // Ends the round, unless the phase has ended.
    fn end_round(&self) {
        change(&self.state, OPEN, QUIET);
        self.floor.wake_all();
    }

    /// Nothing is taken any more in this phase.
    pub fn close(&self) {
        self.state.store(CLOSED, Ordering::SeqCst);
        self.floor.wake_all();
    }

    /// Whether the member's thread goes on in this round. One that has nothing to do leaves it where others haven't begun: they may have to
    /// wait until it returns.
    pub fn goes_on(&self, number: u64) -> bool {
        !self.is_over() && !self.floor.leaves(number)
    }

    /// The member's thread has had events for a while: another one that wants the floor has it next. Where others haven't begun, or can't
    /// look any more, it leaves the round: members that ask each other may have events for ever until those come.
    pub fn offer(&self, number: u64) {
        self.floor.offer(number);
        if self.floor.has_absent() || self.floor.has_left() {
            self.floor.depart(number);
        }
    }

    /// The member's thread returns: the floor is passed on, if the member has it. Where no thread that is left has anything to do, the
    /// round ends.
    pub fn go_out(&self, number: u64) {
        if self.floor.is_quiet() {
            self.end_round();
        }
        self.floor.pass(number);
    }

    /// The member's thread has nothing to do, and the member may be done with the phase. Where no thread has anything to do, all look
    /// once more; where there was no event since they did, or some have left the round and can't look, the round ends.
    pub fn rest(&self, number: u64, is_done: bool) {
        self.floor.lay_down(number);
        if self.floor.is_quiet() {
            if self.has_run.swap(0, Ordering::SeqCst) == 0 || self.floor.has_left() {
                self.end_round();
            }
            self.floor.want_all();
        }
        self.floor.pass(number);
        if is_done {
            self.floor.replace(number);
        }
    }

    // Whether a thread waits no more: its member has the floor, or the round has ended.
    fn is_due(&self, number: u64, word: &AtomicU64) -> bool {
        self.floor.takes(number, word) || self.is_over()
    }

    // Looks for a while, unless it wasn't called and others look.
    fn look(&self, number: u64, word: &AtomicU64, was_called: bool) -> bool {
        if !was_called && self.floor.are_enough_awake(number) {
            return self.is_due(number, word);
        }
        for _ in 0..LOOKS {
            if self.is_due(number, word) {
                return true;
            }
            hint::spin_loop();
        }
        false
    }

    // Sleeps until it is woken, and not for ever. Answers whether it wasn't, and the floor wasn't passed on meanwhile.
    fn sleep<R: Wait>(&self, rt: &R, number: u64, word: &AtomicU64, is_fresh: bool) -> bool {
        let before = self.floor.passed();
        let state = word.load(Ordering::SeqCst);
        let bed = asleep(state, is_fresh);
        if !change(word, state, bed) || self.is_due(number, word) {
            return false;
        }
        word.park_timeout(
            rt,
            (bed % 4294967296) as u32,
            Duration::from_millis(SLEEP_MILLIS),
        );
        word.load(Ordering::SeqCst) == bed && self.floor.passed() == before
    }

    // Waits no longer for one that doesn't go on: the member takes the floor, where it wants it.
    fn tire(&self, number: u64, word: &AtomicU64, slept: u64) {
        if is_wish(word) && slept >= SLEEPS {
            self.floor.seize(number);
        }
    }

    // Waits until the member has the floor, or the round has ended.
    fn wait<R: Wait>(&self, rt: &R, number: u64, word: &AtomicU64, has_run: bool) {
        let is_fresh = !has_run;
        let mut slept = 0u64;
        for _ in rt.forever() {
            let was_called = stand_up(word, is_fresh);
            if self.look(number, word, was_called) {
                return;
            }
            if self.sleep(rt, number, word, is_fresh) {
                slept = slept.saturating_add(1);
                self.tire(number, word, slept);
            } else {
                slept = 0;
            }
        }
        unreachable!()
    }

    /// Waits until the member with this number has the floor, or the round has ended. `has_run` says whether it has had events in this
    /// round.
    pub fn come<R: Wait>(&self, rt: &R, number: u64, has_run: bool) {
        if let Some(word) = self.floor.word_of(number) {
            if !self.floor.is_had_by(number) {
                self.wait(rt, number, word, has_run);
            }
            go(word);
        }
    }
}
