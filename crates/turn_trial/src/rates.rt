//! Turns a second, and the same loop over a lock.
ghost use Rattle.std.specs.Prelude.{◌+◌, ◌*◌, ◌^◌, ◌<◌, ◌≤◌};

use crate::recorder::Recorder;
use crate::trial::run;
use ds_base::NoMemory;
use std::alloc::Global;
use std::io::Print;
use std::rt::Clock;
use std::sync::{Mutex, Wait};
use std::thread::Threads;
use std::time::{Duration, Instant};
use std::{io, thread};

/// How many events all seats run together.
const EVENTS: u64 = 200_000;

/// How often each rate is measured. What else the machine does only makes a run longer, so the shortest counts.
const RUNS: u32 = 5;

/// What the lock keeps in place of the turn.
#[derive(Drop)]
struct Shelf {
    recorder: Recorder,
    journal: Vec<u64>,
}

impl Shelf {
    fn add(&mut self, event: u64) -> Result<(), NoMemory> {
        self.journal.reserve(1)?;
        self.recorder.add(event)?;
        self.journal.push_reserved(event);
        Ok(())
    }
}

// Runs the first `count` events of a caller under the lock.
fn hold<R: Wait>(rt: &R, shelf: &Mutex<Shelf>, caller: u64, count: u64) -> bool
    requires { (caller < 64) × (count < 2 ^ 32) }
{
    for i in 0..count {
        let added = shelf.lock(rt).add(caller + 64 * i);
        if added.is_err() {
            return false;
        }
    }
    true
}

// `callers` threads that hold the lock for `count` events each.
fn hold_all<R: Threads + Wait + Sync>(
    rt: &R,
    alloc: Global,
    callers: usize,
    count: u64,
) -> Option<()>
    requires { (callers < 64) × (count < 2 ^ 32) }
{
    let shelf = Mutex::new(Shelf {
        recorder: Recorder::new(alloc),
        journal: Vec::new(alloc),
    });
    let shared = &shelf;
    let each = |i: usize| -> bool
        requires { (i < 63) × (count < 2 ^ 32) }
    { hold(rt, shared, i as u64 + 1, count) };
    thread::map_indices(rt, alloc, callers, &each).ok()?;
    Some(())
}

fn a_second(events: u64, took: Duration) -> u128
    requires { events < 2 ^ 40 }
{
    events as u128 * 1_000_000_000 / took.as_nanos().max(1)
}

// How long the seats took for all their events. None: there was no memory.
fn time_turns<R: Threads + Wait + Sync + Clock>(
    rt: &R,
    alloc: Global,
    seats: usize,
) -> io::Result<Option<Duration>>
    requires { (1 ≤ seats) × (seats < 64) }
{
    let start = Instant::now(rt)?;
    let ran = run(rt, alloc, seats, EVENTS / seats as u64);
    let took = start.elapsed(rt)?;
    if ran.is_none() {
        return Ok(None);
    }
    Ok(Some(took))
}

// The same under the lock.
fn time_locks<R: Threads + Wait + Sync + Clock>(
    rt: &R,
    alloc: Global,
    callers: usize,
) -> io::Result<Option<Duration>>
    requires { (1 ≤ callers) × (callers < 64) }
{
    let start = Instant::now(rt)?;
    let held = hold_all(rt, alloc, callers, EVENTS / callers as u64);
    let took = start.elapsed(rt)?;
    if held.is_none() {
        return Ok(None);
    }
    Ok(Some(took))
}

// Prints the rates with this many seats.
fn print_rate<R: Threads + Wait + Sync + Clock + Print>(
    rt: &R,
    alloc: Global,
    seats: usize,
) -> io::Result<()>
    requires { (1 ≤ seats) × (seats < 64) }
{
    let mut turns = Duration::from_secs(3600);
    let mut locks = Duration::from_secs(3600);
    for _ in 0..RUNS {
        let (Some(turned), Some(locked)) = (
            time_turns(rt, alloc, seats)?,
            time_locks(rt, alloc, seats)?,
        ) else {
            return println!(rt; "{seats} seats: there was no memory");
        };
        turns = turns.min(turned);
        locks = locks.min(locked);
    }
    let turned = a_second(EVENTS, turns);
    let locked = a_second(EVENTS, locks);
    println!(rt; "{seats} seats: {turned} turns a second, and {locked} under a lock")
}

/// Prints the rates of 1, 2, 4, 8 and 32 seats.
pub fn print_rates<R: Threads + Wait + Sync + Clock + Print>(
    rt: &R,
    alloc: Global,
) -> io::Result<()> {
    for seats in [1usize, 2, 4, 8, 32] {
        print_rate(rt, alloc, seats)?;
    }
    Ok(())
}
