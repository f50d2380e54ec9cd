ghost use Rattle.std.specs.Prelude.{◌<◌, ◌≤◌};

use crate::trial::run;
use std::alloc::Global;
use std::sync::Wait;
use std::test::*;
use std::thread::Threads;

// How often the caller changes from an event to the next, where each caller has `count` events, in its order.
fn changes(journal: &[u64], seats: usize, count: u64) -> Option<u64> {
    let mut next = [0u64; 64];
    let mut changes = 0;
    let mut before = 0;
    for &event in journal {
        let caller = event % 64;
        let at = caller as usize;
        if event / 64 != next[at] {
            return None;
        }
        next[at] = next[at].wrapping_add(1);
        if caller != before {
            changes = u64::wrapping_add(changes, 1);
        }
        before = caller;
    }
    for k in 1..seats.min(63) + 1 {
        if next[k] != count {
            return None;
        }
    }
    Some(changes)
}

// Runs until the events of the seats are seen to interleave, since a thread may have run all its events before another began.
// None: they were not, or an event was lost or misplaced.
fn interleaved<R: Threads + Wait + Sync>(rt: &R, alloc: Global, seats: usize) -> Option<usize>
    requires { (1 ≤ seats) × (seats < 64) }
{
    for _ in 0..200u32 {
        let (recorder, journal) = run(rt, alloc, seats, 10000)?;
        if recorder.events.as_slice() != journal.as_slice() {
            return None;
        }
        if changes(journal.as_slice(), seats, 10000)? > seats as u64 {
            return Some(journal.len());
        }
    }
    None
}

#[test]
fn eight_threads_interleave_and_have_all_their_events_in_order(
    rt: HostRuntime,
) -> Result<(), Fail> {
    assert!(rt; interleaved(&rt, rt.alloc(), 8) == Some(80000));
    Ok(())
}
