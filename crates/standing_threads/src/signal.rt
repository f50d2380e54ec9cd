//! What the two threads of a lane tell each other, so that neither looks in vain for long. Nothing rests on it but when they go on.
//!
//! Neither waits for ever. A standing thread sleeps for a while at most and looks again, and nothing is told behind `OVER`. The leading one
//! waits only while the standing one is at work, and sleeps only where that one wakes it when it has finished.

use crossbeam_utils::CachePadded;
use std::hint;
use std::sync::Wait;
use std::sync::atomic::{AtomicU64, Ordering};
use std::time::Duration;

/// There is nothing to do.
const FREE: u64 = 0;

/// A value is to be worked on, and the standing thread hasn't begun.
const CALLED: u64 = 1;

/// The standing thread is at work.
const WORKS: u64 = 2;

/// What was left of the value lies in the lane.
const DONE: u64 = 3;

/// The standing thread is at work, and the leading one sleeps.
const AWAITED: u64 = 4;

/// Nothing will be to do any more.
const OVER: u64 = 5;

/// The standing thread is awake.
const AWAKE: u64 = 0;

/// The standing thread sleeps.
const ASLEEP: u64 = 1;

/// How often a standing thread looks for something to do before it sleeps.
const LOOKS: u32 = 1000;

/// How long it sleeps at most before it looks again.
const SLEEP_MILLIS: u64 = 5;

/// How often the leading thread looks whether a standing one is done before it sleeps.
const PATIENCE: u32 = 2000;

#[derive(Drop)]
pub struct Signal {
    word: CachePadded<AtomicU64>,
    bed: CachePadded<AtomicU64>,
}

impl Signal {
    pub fn new() -> Signal {
        Signal {
            word: CachePadded::new(AtomicU64::new(FREE)),
            bed: CachePadded::new(AtomicU64::new(AWAKE)),
        }
    }

    fn state(&self) -> u64 {
        self.word.load(Ordering::SeqCst)
    }

    fn change(&self, from: u64, to: u64) -> bool {
        self.word
            .compare_exchange(from, to, Ordering::SeqCst, Ordering::SeqCst)
            .is_ok()
    }

    // Looks for a while whether one of two states has come.
    fn look(&self, looks: u32, one: u64, other: u64) -> bool {
        for _ in 0..looks {
            let state = self.state();
            if state == one || state == other {
                return true;
            }
            hint::spin_loop();
        }
        false
    }

    // The standing thread sleeps for a while, if it hasn't anything to do, or until it is woken.
    fn lie_down<R: Wait>(&self, rt: &R) {
        self.bed.store(ASLEEP, Ordering::SeqCst);
        if !self.look(1, CALLED, OVER) {
            self.bed.park_timeout(
                rt,
                (ASLEEP % 4294967296) as u32,
                Duration::from_millis(SLEEP_MILLIS),
            );
        }
        self.bed.store(AWAKE, Ordering::SeqCst);
    }

    // The leading thread sleeps in this state until it is woken. It may wake for no reason.
    fn sleep<R: Wait>(&self, rt: &R, state: u64) {
        if state == AWAITED || self.change(state, AWAITED) {
            self.word.park(rt, (AWAITED % 4294967296) as u32);
        }
    }

    /// The leading thread has sent a value, which the standing one takes as soon as it is awake.
    pub fn call(&self) {
        self.word.store(CALLED, Ordering::SeqCst);
    }

    /// The leading thread has taken back what it sent.
    pub fn recall(&self) {
        self.word.store(FREE, Ordering::SeqCst);
    }

    /// Wakes the standing thread, if it sleeps.
    pub fn wake(&self) {
        if self.bed.load(Ordering::SeqCst) == ASLEEP {
            self.bed.store(AWAKE, Ordering::SeqCst);
            self.bed.wake_all();
        }
    }

    /// The standing thread has begun.
    pub fn begin(&self) {
        self.word.store(WORKS, Ordering::SeqCst);
    }

    /// The standing thread has sent what was left of the value. Where the leading one has found that already, and sent another or ended,
    /// what it has told since stays.
    pub fn finish(&self) {
        if !self.change(WORKS, DONE) && self.change(AWAITED, DONE) {
            self.word.wake_all();
        }
    }

    /// Nothing will be to do any more.
    pub fn end(&self) {
        self.word.store(OVER, Ordering::SeqCst);
        self.wake();
    }

    /// The standing thread waits until it is called. Answers whether it is: otherwise nothing will be to do any more.
    pub fn await_call<R: Wait>(&self, rt: &R) -> bool {
        for _ in rt.forever() {
            if self.look(LOOKS, CALLED, OVER) {
                return self.state() != OVER;
            }
            self.lie_down(rt);
        }
        unreachable!()
    }

    /// The leading thread waits until the standing one is done, if it has begun.
    pub fn await_done<R: Wait>(&self, rt: &R) {
        for _ in rt.forever() {
            match self.state() {
                WORKS => {
                    if !self.look(PATIENCE, DONE, DONE) {
                        self.sleep(rt, WORKS);
                    }
                }
                AWAITED => self.sleep(rt, AWAITED),
                _ => return,
            }
        }
        unreachable!()
    }
}
