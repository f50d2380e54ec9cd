//! Threads that take turns at a recorder.
ghost use Rattle.std.specs.Prelude.{◌≡◌, ℕ, ◌+◌, ◌*◌, ◌^◌, ◌<◌, ◌≤◌, [], ◌∷◌, ◌++◌, length, true, IfSome, option_to_list};
ghost use Rattle.turn_gate.specs.Seated.{AreOf, first_seats};
ghost use Rattle.turn_trial.specs.Recorded.{caller_of, firsts};
ghost use Rattle.turn_trial.specs.Fresh.{IsFresh};

use crate::recorder::Recorder;
use std::alloc::Global;
use std::sync::Wait;
use std::thread;
use std::thread::Threads;
use turn_gate::{Journal, Seat, Turn, Turned};

/// The first `count` events of a seat's caller. It is true if all were run.
pub fn work<R: Wait>(
    rt: &R,
    alloc: Global,
    turn: &Turn<Recorder>,
    seat: &mut Seat<Recorder>,
    caller: u64,
    count: u64,
) -> bool
    requires range { (caller < 64) × (count < 2 ^ 32) }
    requires fresh { IsFresh turn.now.id caller seat.old }
    ensures turn { seat.new.turn ≡ turn.now.id }
    ensures own { result ≡ true → seat.new.knows.own ≡ firsts caller count }
{
    let mut part = 0;
    for i in 0..count {
        let turned = seat.take_turn(rt, alloc, turn, &mut part, caller + 64 * i);
        if turned == Turned::NoMemory {
            return false;
        }
    }
    true
}

// Each seat has its caller's events run, in a thread of its own.
fn work_all<R: Threads + Wait + Sync>(
    rt: &R,
    alloc: Global,
    turn: &Turn<Recorder>,
    seats: &mut [Seat<Recorder>],
    count: u64,
)
    requires range { (1 ≤ length seats.old) × (length seats.old < 64) × (count < 2 ^ 32) }
    requires fresh { seats.old ≡ first_seats caller_of turn.now.id 0 [] (length seats.old) }
    ensures { AreOf turn.now.id seats.new × (length seats.new ≡ length seats.old) }
{
    let threads = seats.len();
    let each = |i: usize, seat: &mut Seat<Recorder>|
        requires { (i < 63) × (count < 2 ^ 32) × IsFresh turn.now.id (i + 1) seat.now }
        ensures { seat.exit.now.turn ≡ turn.entry.now.id }
    {
        work(rt, alloc, turn, seat, i as u64 + 1, count);
    };
    thread::for_each_mut(rt, seats, threads, &each);
}

/// A turn with `seats` seats, each of which runs `count` events in a thread of its own. None: there was no memory for it.
pub fn run<R: Threads + Wait + Sync>(
    rt: &R,
    alloc: Global,
    seats: usize,
    count: u64,
) -> Option<(Recorder, Journal)>
    requires { (1 ≤ seats) × (seats < 64) × (count < 2 ^ 32) }
    ensures { IfSome result (λ r. r.1 ≡ r.0.events.items ++ option_to_list r.0.lost) }
{
    let parts = vec![in alloc; 0u64; seats].ok()?;
    let recorder = Recorder::new(alloc);
    let journal = Journal::new(alloc);
    let Ok((turn, mut seats)) = Turn::new(alloc, recorder, journal, parts.as_slice()) else {
        return None;
    };
    work_all(rt, alloc, &turn, seats.as_mut_slice(), count);
    let (recorder, journal, _) = turn.close(seats);
    Some((recorder, journal))
}
