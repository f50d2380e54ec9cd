//! Which thread of a phase takes events, and what the others do meanwhile.

use crossbeam_utils::CachePadded;
use ds_base::NoMemory;
use std::alloc::Global;
use std::sync::atomic::{AtomicU64, Ordering};

/// Nobody has the floor.
const FREE: u64 = 0;

/// A thread hasn't begun.
const ABSENT: u64 = 0;

/// A thread has left the round.
const LEFT: u64 = 1;

/// A thread is at work.
const WORKS: u64 = 2;

/// A thread sleeps, and has nothing to do.
const IDLE: u64 = 3;

/// A thread is awake, and has nothing to do.
const LISTENS: u64 = 4;

/// A thread sleeps, and wants the floor, which it hasn't had in this round. From here on a thread wants it.
const FRESH: u64 = 5;

/// A thread is awake, and wants the floor, which it hasn't had in this round.
const EAGER: u64 = 6;

/// A thread wants the floor, and is woken.
const CALLED: u64 = 7;

/// A thread sleeps, and wants the floor again. From here on a thread wants what it has had.
const WANTS: u64 = 8;

/// A thread is awake, and wants the floor again.
const LOOKS: u64 = 9;

/// How many threads at most are kept awake beside the one that has the floor.
const AHEAD: u64 = 2;

/// How often the floor is passed on before it goes to the next member behind that wants it, in place of the first one.
const ROUND: u64 = 1024;

/// The floor is had by one thread at most, which takes events as long as it has any, and then passed on: to the first member that wants it
/// again, and where there is none, to the first that hasn't had it. Where few members are at work, few wait for one another. Now and then
/// it goes to the next one behind, so that each comes to it. Nothing rests on it: a turn may be taken without it.
#[derive(Drop)]
pub struct Floor {
    /// The number of the member whose thread has it.
    holder: CachePadded<AtomicU64>,
    /// How often it was passed on.
    passed: AtomicU64,
    /// By member, from the first one: what its thread does.
    threads: Vec<CachePadded<AtomicU64>>,
}

fn is_asleep(state: u64) -> bool {
    state == IDLE || state == WANTS || state == FRESH
}

fn is_at_rest(state: u64) -> bool {
    state == IDLE || state == LISTENS || state == LEFT
}

fn is_ahead(state: u64) -> bool {
    state == EAGER || state == CALLED || state == LOOKS
}

fn is_awake(state: u64) -> bool {
    state == LISTENS || is_ahead(state)
}

// What a thread does once it has something to do.
fn with_wish(state: u64) -> u64 {
    match state {
        IDLE => WANTS,
        LISTENS => LOOKS,
        _ => state,
    }
}

/// What a thread does once it sleeps.
pub fn asleep(state: u64, is_fresh: bool) -> u64 {
    if state < FRESH {
        IDLE
    } else if is_fresh {
        FRESH
    } else {
        WANTS
    }
}

// What a thread does once it is awake.
fn awake(state: u64, is_fresh: bool) -> u64 {
    if state == IDLE || state == LISTENS {
        LISTENS
    } else if is_fresh {
        EAGER
    } else {
        LOOKS
    }
}

/// Changes what a thread does, unless that has changed meanwhile.
pub fn change(word: &AtomicU64, from: u64, to: u64) -> bool {
    word.compare_exchange(from, to, Ordering::SeqCst, Ordering::SeqCst)
        .is_ok()
}

/// A thread wakes, or begins to wait. Answers whether it was called.
pub fn stand_up(word: &AtomicU64, is_fresh: bool) -> bool {
    let state = word.load(Ordering::SeqCst);
    if !change(word, state, awake(state, is_fresh)) {
        word.store(LOOKS, Ordering::SeqCst);
    }
    state == CALLED
}

/// A thread goes to work.
pub fn go(word: &AtomicU64) {
    if word.load(Ordering::SeqCst) != WORKS {
        word.store(WORKS, Ordering::SeqCst);
    }
}

/// Whether a thread wants the floor.
pub fn is_wish(word: &AtomicU64) -> bool {
    word.load(Ordering::SeqCst) >= FRESH
}

impl Floor {
    pub fn new(alloc: Global, count: usize) -> Result<Floor, NoMemory> {
        let mut threads = Vec::with_capacity(alloc, count)?;
        for _ in 0..count {
            threads.push_reserved(CachePadded::new(AtomicU64::new(ABSENT)));
        }
        Ok(Floor {
            holder: CachePadded::new(AtomicU64::new(FREE)),
            passed: AtomicU64::new(0),
            threads,
        })
    }

    /// A round begins. No thread is in.
    pub fn clear(&self) {
        self.holder.store(FREE, Ordering::SeqCst);
        for word in self.threads.iter() {
            word.store(ABSENT, Ordering::SeqCst);
        }
    }

    /// What the thread of the member with this number does.
    pub fn word_of(&self, number: u64) -> Option<&CachePadded<AtomicU64>> {
        self.threads.get((number as usize).wrapping_sub(1))
    }

    /// How many threads there may be.
    pub fn count(&self) -> u64 {
        self.threads.len() as u64
    }

    /// Whether the thread of this member has it.
    pub fn is_had_by(&self, number: u64) -> bool {
        self.holder.load(Ordering::SeqCst) == number
    }

    /// Whether nobody has it.
    pub fn is_free(&self) -> bool {
        self.is_had_by(FREE)
    }

    /// How often it was passed on.
    pub fn passed(&self) -> u64 {
        self.passed.load(Ordering::SeqCst)
    }

    /// Takes it from a thread that doesn't go on.
    pub fn seize(&self, number: u64) {
        self.holder.store(number, Ordering::SeqCst);
    }

    /// Whether the member has it, or takes it where nobody has it and its thread wants it, of which this is the word.
    pub fn takes(&self, number: u64, word: &AtomicU64) -> bool {
        if self.is_free() {
            return is_wish(word) && change(&self.holder, FREE, number);
        }
        self.is_had_by(number)
    }

    fn state_of(&self, number: u64) -> u64 {
        match self.word_of(number) {
            Some(word) => word.load(Ordering::SeqCst),
            None => ABSENT,
        }
    }

    // The next one, of the members behind `last` and then of all from the first on, but `number`, whose thread does this or more.
    fn next_behind(&self, last: u64, number: u64, least: u64) -> Option<u64> {
        let count = self.count();
        for k in 0..count {
            let next = last.wrapping_add(k) % count.max(1) + 1;
            if next != number && self.state_of(next) >= least {
                return Some(next);
            }
        }
        None
    }

    // Who has it behind this member: the first one that wants it again, or else that wants it; or now and then the next one behind.
    fn successor(&self, number: u64) -> Option<u64> {
        if self.passed() % ROUND == ROUND - 1 {
            return self.next_behind(number, number, FRESH);
        }
        match self.next_behind(0, number, WANTS) {
            Some(next) => Some(next),
            None => self.next_behind(0, number, FRESH),
        }
    }

    /// Whether so many threads of others are awake that this one is to sleep.
    pub fn are_enough_awake(&self, number: u64) -> bool {
        let mut awake = 0u64;
        for (at, word) in self.threads.iter().enumerate() {
            let is_other = (at as u64).wrapping_add(1) != number;
            if is_other && is_awake(word.load(Ordering::SeqCst)) {
                awake = awake.saturating_add(1);
            }
        }
        awake >= AHEAD
    }

    // Wakes a thread, if it sleeps.
    fn wake(&self, word: &AtomicU64) {
        let state = word.load(Ordering::SeqCst);
        if is_asleep(state) && change(word, state, CALLED) {
            word.wake_all();
        }
    }

    // Wakes the thread of a member, if it sleeps.
    fn call(&self, number: u64) {
        if let Some(word) = self.word_of(number) {
            self.wake(word);
        }
    }

    // The first thread that is fresh, if fewer threads of others than are kept awake look for the floor or are woken for it.
    fn fresh(&self, number: u64) -> Option<u64> {
        let mut fresh = None;
        let mut ahead = 0u64;
        for (at, word) in self.threads.iter().enumerate() {
            let other = (at as u64).wrapping_add(1);
            let state = word.load(Ordering::SeqCst);
            if other != number && is_ahead(state) {
                ahead = ahead.saturating_add(1);
            } else if state == FRESH && fresh.is_none() {
                fresh = Some(other);
            }
        }
        if ahead < AHEAD { fresh } else { None }
    }

    /// The thread of the member with this number has something to do.
    pub fn want(&self, number: u64) {
        if let Some(word) = self.word_of(number) {
            for _ in 0..3u32 {
                let state = word.load(Ordering::SeqCst);
                if !is_at_rest(state) || change(word, state, with_wish(state)) {
                    return;
                }
            }
        }
    }

    /// All threads that wait have something to do.
    pub fn want_all(&self) {
        for at in 0..self.count() {
            self.want(at.wrapping_add(1));
        }
    }

    /// Whether all threads wait, and none has anything to do.
    pub fn is_quiet(&self) -> bool {
        self.threads
            .iter()
            .all(|word| is_at_rest(word.load(Ordering::SeqCst)))
    }

    /// Whether some thread hasn't begun.
    pub fn has_absent(&self) -> bool {
        self.threads
            .iter()
            .any(|word| word.load(Ordering::SeqCst) == ABSENT)
    }

    /// Whether some thread has left the round.
    pub fn has_left(&self) -> bool {
        self.threads
            .iter()
            .any(|word| word.load(Ordering::SeqCst) == LEFT)
    }

    /// The member's thread has nothing to do.
    pub fn lay_down(&self, number: u64) {
        if let Some(word) = self.word_of(number) {
            word.store(LISTENS, Ordering::SeqCst);
        }
    }

    /// The member's thread leaves the round.
    pub fn depart(&self, number: u64) {
        if let Some(word) = self.word_of(number) {
            word.store(LEFT, Ordering::SeqCst);
        }
    }

    /// Whether the member's thread has left the round. It does where it has nothing to do and others haven't begun.
    pub fn leaves(&self, number: u64) -> bool {
        match self.word_of(number) {
            Some(word) => {
                let state = word.load(Ordering::SeqCst);
                state == LEFT
                    || (state == LISTENS && self.has_absent() && change(word, LISTENS, LEFT))
            }
            None => false,
        }
    }

    /// Wakes all threads that sleep.
    pub fn wake_all(&self) {
        for word in self.threads.iter() {
            self.wake(word);
        }
    }

    // Passes it to a member whose thread wants it.
    fn pass_to(&self, next: u64) {
        self.passed.fetch_add(1, Ordering::SeqCst);
        self.holder.store(next, Ordering::SeqCst);
        self.call(next);
    }

    // Leaves it to nobody, unless one has begun to want it meanwhile.
    fn leave(&self, number: u64) {
        self.holder.store(FREE, Ordering::SeqCst);
        if let Some(next) = self.next_behind(0, number, FRESH) {
            self.call(next);
        }
    }

    /// Passes it on, if the member has it.
    pub fn pass(&self, number: u64) {
        if self.is_had_by(number) {
            match self.successor(number) {
                Some(next) => self.pass_to(next),
                None => self.leave(number),
            }
        }
    }

    /// The member is done: a thread that hasn't had the floor is woken in place of its own.
    pub fn replace(&self, number: u64) {
        if let Some(fresh) = self.fresh(number) {
            self.call(fresh);
        }
    }

    /// Passes it on to the next one behind this member that wants it, if the member has it.
    pub fn offer(&self, number: u64) {
        if self.is_had_by(number) {
            if let Some(next) = self.next_behind(number, number, FRESH) {
                self.pass_to(next);
            }
        }
    }
}
