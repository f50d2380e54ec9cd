ghost use Rattle.std.specs.Prelude.{◌≡◌, ℕ, ◌+◌, ◌%◌, ◌^◌, ◌<◌, ◌≤◌, length, IfSome};
ghost use Rattle.turn_story.specs.Desks.{IsAt, AllAt};

use crate::{Desk, Phase, Stepping, Told};
use ds_base::NoMemory;
use std::alloc::Global;
use std::sync::Wait;
use std::test::*;
use std::thread;
use std::thread::Threads;
use turn_gate::{Laid, Look, Turn, Turned};

/// A sum that its callers add to.
#[derive(Drop)]
struct Adder {
    sum: u64,
}

// What an event adds. Nothing is added where a sum would not fit.
fn addend(event: u64, sum: u64, own: u64) -> u64
    ensures { (result ≤ 3) × (sum + result < 2 ^ 64) × (own + result < 2 ^ 64) }
{
    let most = (u64::MAX - sum).min(u64::MAX - own);
    (event / 64 % 4).min(most)
}

impl Stepping for Adder {
    ghost use Rattle.std.specs.Prelude.{◌≡◌, ℕ, ◌+◌, ◌%◌, ◌≤◌};
    ghost use Rattle.turn_gate.specs.declared.answer.Look.TheVariants as looked;

    /// What the caller has added.
    type Part = u64;

    ghost caller = { λ event. event % 64 };

    ghost steps = { λ a p event b q. (n : ℕ) × (n ≤ 3) × (b.sum ≡ a.sum + n) × (q ≡ p + n) };

    ghost looks = { λ a p from found. found ≡ looked.Ready from };

    ghost tally = { λ a. a.sum };

    fn run(&mut self, _: Global, part: &mut u64, event: u64) -> Result<(), NoMemory> {
        let added = addend(event, self.sum, *part);
        self.sum += added;
        *part += added;
        Ok(())
    }

    fn look(&self, _: &u64, from: u64) -> Look {
        Look::Ready(from)
    }
}

// The first `count` events of a caller.
fn work<R: Wait>(
    rt: &R,
    alloc: Global,
    turn: &Turn<Told<Adder>>,
    desk: &mut Desk<Adder>,
    caller: u64,
    count: u64,
)
    requires range { (caller < 64) × (count < 2 ^ 32) }
    requires at { (desk.old.seat.knows.caller ≡ caller) × IsAt (λ event. event % 64) turn.now.id turn.now.start desk.old.seat desk.old.part }
    ensures at { (desk.new.seat.knows.caller ≡ caller) × IsAt (λ event. event % 64) turn.now.id turn.now.start desk.new.seat desk.new.part }
{
    for i in 0..count {
        let turned = desk.take_turn(rt, alloc, turn, caller + 64 * i);
        if turned == Turned::NoMemory {
            return;
        }
    }
}

// Each desk has its caller's events run, in a thread of its own.
fn work_all<R: Threads + Wait + Sync>(
    rt: &R,
    alloc: Global,
    turn: &Turn<Told<Adder>>,
    desks: &mut [Desk<Adder>],
    count: u64,
)
    requires range { (1 ≤ length desks.old) × (length desks.old < 64) × (count < 2 ^ 32) }
    requires at { AllAt (λ event. event % 64) turn.now.id turn.now.start desks.old (λ d. d.seat) (λ d. d.part) 1 }
    ensures count { length desks.new ≡ length desks.old }
    ensures at { AllAt (λ event. event % 64) turn.now.id turn.now.start desks.new (λ d. d.seat) (λ d. d.part) 1 }
{
    let threads = desks.len();
    let each = |i: usize, desk: &mut Desk<Adder>|
        requires { (i < 63) × (count < 2 ^ 32) × (desk.now.seat.knows.caller ≡ i + 1) × IsAt (λ event. event % 64) turn.now.id turn.now.start desk.now.seat desk.now.part }
        ensures { (desk.exit.now.seat.knows.caller ≡ i + 1) × IsAt (λ event. event % 64) turn.entry.now.id turn.entry.now.start desk.exit.now.seat desk.exit.now.part }
    { work(rt, alloc, turn, desk, i as u64 + 1, count) };
    thread::for_each_mut(rt, desks, threads, &each);
}

// The parts of three callers.
fn three_parts(alloc: Global) -> Option<Vec<Laid<u64>>>
    ensures { IfSome result (λ parts. length parts.items ≡ 3) }
{
    let first = Laid::new(alloc, 0u64).ok()?;
    let second = Laid::new(alloc, 0u64).ok()?;
    let third = Laid::new(alloc, 0u64).ok()?;
    vec![in alloc; first, second, third].ok()
}

// Three callers: the sum, whether each has added as much as it was to, and how many events there were.
fn add_all<R: Threads + Wait + Sync>(rt: &R, alloc: Global) -> Option<(u64, bool, usize)> {
    let parts = three_parts(alloc)?;
    let Ok((phase, mut desks)) = Phase::open(alloc, Adder { sum: 0 }, parts) else {
        return None;
    };
    work_all(rt, alloc, phase.turn(), desks.as_mut_slice(), 1000);
    let closed = phase.close(desks);
    if closed.ended {
        return None;
    }
    let [first, second, third] = closed.parts.as_slice() else {
        return None;
    };
    let each = *first.get() == 1500 && *second.get() == 1500 && *third.get() == 1500;
    Some((closed.value.sum, each, closed.journal.len()))
}

#[test]
fn three_threads_add_what_each_has_added(rt: HostRuntime) -> Result<(), Fail> {
    let Some((sum, each, events)) = add_all(&rt, rt.alloc()) else {
        return Ok(());
    };
    assert!(rt; events == 3000);
    assert!(rt; sum == 4500);
    assert!(rt; each);
    Ok(())
}
