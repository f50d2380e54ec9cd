//! A run to the end of a script.

ghost use Rattle.std.specs.Prelude.{◌≡◌, ◌≢◌, ◌≤◌, true, false, Some, Ok, IfOk, IfSome, OnOk, OnErr};
ghost use Rattle.group_core.specs.declared.fault.RunFault.TheVariants as fault;
ghost use Rattle.group_core.specs.declared.schedule.RunEnd.TheVariants as ends;
ghost use Rattle.group_core.specs.Ends.{Ends};
ghost use Rattle.group_core.specs.Fresh.{RunsFrom};

use crate::errand::Errand;
use crate::gate::Gate;
use crate::phase::{NAMED, play_phase};
use crate::rack::Rack;
use crate::shared::Shared;
use cache_structure::CacheFace;
use ds_base::NoMemory;
use ds_disk::Disk;
use group_core::{Group, Policy, RunEnd, RunFault};
use standing_threads::{Leader, Pool, with_threads};
use std::alloc::Global;
use std::sync::Wait;
use std::thread::Threads;

// Whether memory was wanting.
fn is_wanting<D, C, P>(group: &Group<D, C, P>) -> bool
    ensures yes { result ≡ true → group.now.fault ≡ Some fault.NoMemory }
    ensures no { result ≡ false → group.now.fault ≢ Some fault.NoMemory }
{
    match group.fault() {
        Some(RunFault::NoMemory) => true,
        _ => false,
    }
}

// The end of a run that went on so far. None: it goes on.
fn end_of<D, C, P>(group: &Group<D, C, P>) -> Option<Result<RunEnd, NoMemory>>
    ensures ends { IfSome result (λ r. IfOk r (λ end. Ends end group.now)) }
    ensures unspent { IfSome result (λ r. r ≢ Ok ends.Spent) }
    ensures wanting { IfSome result (λ r. OnErr r (group.now.fault ≡ Some fault.NoMemory)) }
{
    if is_wanting(group) {
        return Some(Err(NoMemory));
    }
    match group.standing() {
        RunEnd::Spent => None,
        end => Some(Ok(end)),
    }
}

// Takes the least event that is ready.
fn take_one<D: Disk, C: CacheFace, P: Policy>(
    alloc: Global,
    group: &mut Group<D, C, P>,
) -> Result<(), NoMemory>
    ensures runs { OnOk result (RunsFrom C.directory D.alive D.contents D.faults group.old group.new) }
    ensures later { D.faults group.old.disk ≤ D.faults group.new.disk }
    ensures wanting { OnErr result (group.new.fault ≡ Some fault.NoMemory) }
{
    match group.ready(0) {
        Some(event) => group.step(alloc, event),
        None => Ok(()),
    }
}

// The group's own event that is ready, or else a phase.
fn go_on<'g, R: Wait, D: Disk + Drop, C: CacheFace + Drop, P: Policy + Drop, G: Gate>(
    rt: &R,
    alloc: Global,
    pool: &mut Pool<Errand<'g, Shared<D, C, P>, G>>,
    mut group: Group<D, C, P>,
    rack: &mut Rack<P>,
    gate: &'g G,
) -> (Group<D, C, P>, Result<(), NoMemory>)
    ensures runs { OnOk result.1 (RunsFrom C.directory D.alive D.contents D.faults group result.0) }
    ensures later { D.faults group.disk ≤ D.faults result.0.disk }
    ensures wanting { OnErr result.1 (result.0.fault ≡ Some fault.NoMemory) }
    ensures rack { rack.new ≡ rack.old }
{
    if let Some(event) = group.own_event() {
        let taken = group.step(alloc, event);
        return (group, taken);
    }
    let before = group.journal().len();
    let mut group = play_phase(rt, alloc, pool, group, rack, gate);
    if is_wanting(&group) {
        return (group, Err(NoMemory));
    }
    if group.journal().len() > before {
        return (group, Ok(()));
    }
    let taken = take_one(alloc, &mut group);
    (group, taken)
}

// Plays the script of a group to its end, with these threads. The rack is kept from phase to phase.
fn play_all<'g, R: Wait, D: Disk + Drop, C: CacheFace + Drop, P: Policy + Drop, G: Gate>(
    rt: &R,
    alloc: Global,
    pool: &mut Pool<Errand<'g, Shared<D, C, P>, G>>,
    group: Group<D, C, P>,
    rack: Rack<P>,
    gate: &'g G,
) -> (Group<D, C, P>, Result<RunEnd, NoMemory>)
    ensures ends { IfOk result.1 (λ end. Ends end result.0) }
    ensures unspent { result.1 ≢ Ok ends.Spent }
    ensures runs { OnOk result.1 (RunsFrom C.directory D.alive D.contents D.faults group result.0) }
    ensures later { D.faults group.disk ≤ D.faults result.0.disk }
    ensures wanting { OnErr result.1 (result.0.fault ≡ Some fault.NoMemory) }
{
    let mut group = group;
    let mut rack = rack;
    for _ in rt.forever() {
        if let Some(end) = end_of(&group) {
            return (group, end);
        }
        let (next, taken) = go_on(rt, alloc, pool, group, &mut rack, gate);
        group = next;
        if let Err(NoMemory) = taken {
            return (group, Err(NoMemory));
        }
    }
    unreachable!()
}

/// A group whose script is to be played, and the room for its members while they are out.
#[derive(Drop)]
struct Play<'g, D, C, P, G> {
    alloc: Global,
    group: Group<D, C, P>,
    rack: Rack<P>,
    gate: &'g G,
}

impl<'g, D: Disk + Drop, C: CacheFace + Drop, P: Policy + Drop, G: Gate> Leader<
    Errand<'g, Shared<D, C, P>, G>,
> for Play<'g, D, C, P, G> {
    ghost use Rattle.group_threads.specs.Played.{IsPlayed};

    type Answer = (Group<D, C, P>, Result<RunEnd, NoMemory>);

    ghost leads = { λ play answer. IsPlayed C.directory D.alive D.contents D.faults play.group answer.0 answer.1 };

    fn lead<R: Wait>(
        self,
        rt: &R,
        pool: &mut Pool<Errand<'g, Shared<D, C, P>, G>>,
    ) -> (Group<D, C, P>, Result<RunEnd, NoMemory>) {
        let Play {
            alloc,
            group,
            rack,
            gate,
        } = self;
        play_all(rt, alloc, pool, group, rack, gate)
    }
}

// A group whose run memory was wanting for.
fn unled<D, C, P>(group: Group<D, C, P>) -> Group<D, C, P>
    ensures { (result.fault ≡ Some fault.NoMemory) × (result.disk ≡ group.disk) }
{
    let mut left = group;
    left.fault = Some(RunFault::NoMemory);
    left
}

/// Plays the script of a group to its end: each member of a phase in a thread of its own, which stands through the run, or in this one
/// where that hasn't come to it, and between the phases the events of the group itself.
pub fn run_threads<
    R: Threads + Wait + Sync,
    D: Disk + Drop + Send,
    C: CacheFace + Drop + Send,
    P: Policy + Drop + Send,
    G: Gate + Sync,
>(
    rt: &R,
    alloc: Global,
    group: Group<D, C, P>,
    gate: &G,
) -> (Group<D, C, P>, Result<RunEnd, NoMemory>)
    ensures ends { IfOk result.1 (λ end. Ends end result.0) }
    ensures unspent { result.1 ≢ Ok ends.Spent }
    ensures runs { OnOk result.1 (RunsFrom C.directory D.alive D.contents D.faults group result.0) }
    ensures later { D.faults group.disk ≤ D.faults result.0.disk }
    ensures wanting { OnErr result.1 (result.0.fault ≡ Some fault.NoMemory) }
{
    let count = group.crew.parts.len();
    let Ok(rack) = Rack::new(alloc, count) else {
        return (unled(group), Err(NoMemory));
    };
    let play = Play {
        alloc,
        group,
        rack,
        gate,
    };
    match with_threads(rt, alloc, count.min(NAMED).saturating_sub(1), play) {
        Ok(played) => played,
        Err((_, play)) => (unled(play.group), Err(NoMemory)),
    }
}
