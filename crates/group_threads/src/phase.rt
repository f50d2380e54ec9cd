//! A phase of a script, with a thread for each member.

ghost use Rattle.std.specs.Prelude.{◌≡◌, ◌⊎◌, ◌+◌, ◌^◌, ◌<◌, ◌≤◌, ℕ, List, [], ◌++◌, length, map, vec_capacity, true, false, Some, IfOk};
ghost use Rattle.turn_story.specs.Chains.{Leads};
ghost use Rattle.group_core.specs.declared.fault.RunFault.TheVariants as fault;
ghost use Rattle.std.specs.Arc.{arc_value};
ghost use Rattle.group_threads.specs.Desks.{AreMembersAt, member_in};
ghost use Rattle.group_threads.specs.Errands.{StandAt, ErrandsAt};
ghost use Rattle.group_core.specs.Fresh.{IsLooked, RunsFrom};
ghost use Rattle.group_threads.specs.Wholes.{StepsHand, parts_in};
ghost use Rattle.group_core.specs.declared.group.Group.{Group as AnyGroup};

use crate::errand::{Errand, Stage};
use crate::gate::Gate;
use crate::hall::Hall;
use crate::hand::Hand;
use crate::rack::Rack;
use crate::shared::{Apart, Shared, put_together, take_apart};
use crate::worker::Worker;
use cache_structure::CacheFace;
use ds_base::NoMemory;
use ds_disk::Disk;
use group_core::{Group, Policy, RunFault};
use standing_threads::Pool;
use std::alloc::Global;
use std::sync::{Arc, Wait};
use std::{mem, thread};
use turn_gate::{Journal, Laid};
use turn_story::{Closed, Desk, Phase, Room};

/// The most members that the number of an event can name.
pub const NAMED: usize = 63;

/// What the members' threads share, in as many hands.
type Shelf<D, C, P> = Arc<Stage<Shared<D, C, P>>, Global>;

/// The members' work.
type Errands<'g, D, C, P, G> = Vec<Errand<'g, Shared<D, C, P>, G>>;

// One more owner. It waits while there are too many.
fn share<R: Wait, D: Disk, C: CacheFace, P: Policy>(
    rt: &R,
    stage: &Shelf<D, C, P>,
) -> Shelf<D, C, P>
    ensures { arc_value result ≡ arc_value stage.now }
{
    for _ in rt.forever() {
        if let Ok(one) = Arc::try_clone(stage) {
            return one;
        }
        thread::yield_now();
    }
    unreachable!()
}

// What was shared. It waits until all others have let go of it.
fn take_whole<R: Wait, D: Disk, C: CacheFace, P: Policy>(
    rt: &R,
    stage: Shelf<D, C, P>,
) -> Stage<Shared<D, C, P>>
    ensures { result ≡ arc_value stage }
{
    let mut stage = stage;
    for _ in rt.forever() {
        match Arc::try_unwrap(stage) {
            Ok(whole) => return whole,
            Err(shared) => stage = shared,
        }
        thread::yield_now();
    }
    unreachable!()
}

// Gives each desk a worker. The list is left empty, with its room.
fn staff<'g, R: Wait, D: Disk, C: CacheFace, P: Policy, G>(
    rt: &R,
    alloc: Global,
    desks: &mut Vec<Desk<Shared<D, C, P>>>,
    mut errands: Errands<'g, D, C, P, G>,
    stage: &Shelf<D, C, P>,
    gate: &'g G,
) -> Errands<'g, D, C, P, G>
    requires room { (errands.items ≡ []) × (length desks.old.items ≤ vec_capacity errands) }
    requires few { length desks.old.items ≤ 63 }
    ensures desks { map (λ e. e.worker.desk) result.items ≡ desks.old.items }
    ensures stage { StandAt (arc_value stage.now) 1 result.items }
    ensures empty { (desks.new.items ≡ []) × (vec_capacity desks.new ≡ vec_capacity desks.old) }
{
    while let Some(desk) = desks.pop() {
        errands.push_reserved(Errand {
            worker: Worker::new(desk),
            stage: share(rt, stage),
            gate,
            alloc,
            number: desks.len() as u64 + 1,
        });
    }
    errands.reverse();
    errands
}

// Takes the desks back.
fn dismiss<'g, D: Disk + Drop, C: CacheFace + Drop, P: Policy + Drop, G>(
    mut errands: Errands<'g, D, C, P, G>,
    desks: &mut Vec<Desk<Shared<D, C, P>>>,
)
    requires room { (desks.old.items ≡ []) × (length errands.items ≤ vec_capacity desks.old) }
    ensures { desks.new.items ≡ map (λ e. e.worker.desk) errands.entry.items }
{
    errands.reverse();
    while let Some(errand) = errands.pop() {
        let Errand {
            worker,
            stage: _,
            gate: _,
            alloc: _,
            number: _,
        } = errand;
        desks.push_reserved(worker.into_desk());
    }
}

// Whether any member has had an event in this round.
fn has_any_run<'g, D: Disk, C: CacheFace, P: Policy, G>(
    errands: &[Errand<'g, Shared<D, C, P>, G>],
) -> bool {
    errands.iter().any(|errand| errand.worker.has_run())
}

// Rounds, in which each member takes its events in a thread of its own or in this one, until nothing is taken any more.
fn work_all<'g, R: Wait, D: Disk + Drop, C: CacheFace + Drop, P: Policy + Drop, G: Gate>(
    rt: &R,
    pool: &mut Pool<Errand<'g, Shared<D, C, P>, G>>,
    errands: &mut Errands<'g, D, C, P, G>,
    stage: &Shelf<D, C, P>,
)
    requires few { length errands.old.items ≤ 63 }
    requires at { ErrandsAt (arc_value stage.now) 1 errands.old.items }
    ensures count { length errands.new.items ≡ length errands.old.items }
    ensures at { ErrandsAt (arc_value stage.now) 1 errands.new.items }
{
    for _ in rt.forever() {
        stage.hall.begin();
        pool.work_each(rt, errands);
        if stage.hall.is_closed() || !has_any_run(errands.as_slice()) {
            return;
        }
    }
    unreachable!()
}

// What was to be played where memory was wanting for it.
fn unplayed<D: Disk, C: CacheFace, P: Policy>(
    alloc: Global,
    shared: Shared<D, C, P>,
    hands: Vec<Laid<Hand<P>>>,
) -> Closed<Shared<D, C, P>>
    ensures { result ≡ record { value = shared; parts = hands; journal = []; ended = true } }
{
    Closed {
        value: shared,
        parts: hands,
        journal: Journal::new(alloc),
        ended: true,
    }
}

// Plays the phase in hand at these desks, with what its threads share.
fn play_staged<'g, R: Wait, D: Disk + Drop, C: CacheFace + Drop, P: Policy + Drop, G: Gate>(
    rt: &R,
    alloc: Global,
    pool: &mut Pool<Errand<'g, Shared<D, C, P>, G>>,
    stage: Shelf<D, C, P>,
    desks: &mut Vec<Desk<Shared<D, C, P>>>,
    errands: Errands<'g, D, C, P, G>,
    gate: &'g G,
) -> Stage<Shared<D, C, P>>
    requires few { length desks.old.items ≤ 63 }
    requires at { AreMembersAt (arc_value stage).turn desks.old.items (λ d. d.seat) (λ d. d.part) }
    requires room { (errands.items ≡ []) × (length desks.old.items ≤ vec_capacity errands) }
    ensures stage { result ≡ arc_value stage }
    ensures count { length desks.new.items ≡ length desks.old.items }
    ensures at { AreMembersAt (arc_value stage).turn desks.new.items (λ d. d.seat) (λ d. d.part) }
{
    let mut errands = staff(rt, alloc, desks, errands, &stage, gate);
    work_all(rt, pool, &mut errands, &stage);
    dismiss(errands, desks);
    take_whole(rt, stage)
}

// Closes a phase that is not played for want of memory.
fn close_unplayed<D: Disk, C: CacheFace, P: Policy>(
    phase: Phase<Shared<D, C, P>>,
    desks: Vec<Desk<Shared<D, C, P>>>,
) -> Closed<Shared<D, C, P>>
    requires count { length desks.items ≡ phase.seats }
    requires at { AreMembersAt phase desks.items (λ d. d.seat) (λ d. d.part) }
    ensures ended { result.ended ≡ true }
    ensures count { length result.parts.items ≡ phase.seats }
    ensures later { D.faults phase.start.value.value.group.disk ≤ D.faults result.value.group.disk }
{
    let mut closed = phase.close(desks);
    closed.ended = true;
    closed
}

// Plays the phase in hand at these desks.
fn play_at<'g, R: Wait, D: Disk + Drop, C: CacheFace + Drop, P: Policy + Drop, G: Gate>(
    rt: &R,
    alloc: Global,
    pool: &mut Pool<Errand<'g, Shared<D, C, P>, G>>,
    phase: Phase<Shared<D, C, P>>,
    mut desks: Vec<Desk<Shared<D, C, P>>>,
    errands: Errands<'g, D, C, P, G>,
    hall: Hall,
    gate: &'g G,
) -> Closed<Shared<D, C, P>>
    requires few { (1 ≤ phase.seats) × (phase.seats ≤ 63) }
    requires count { length desks.items ≡ phase.seats }
    requires at { AreMembersAt phase desks.items (λ d. d.seat) (λ d. d.part) }
    requires room { (errands.items ≡ []) × (length desks.items ≤ vec_capacity errands) }
    ensures leads { result.ended ≡ false → Leads member_in (StepsHand C.directory D.alive D.contents D.faults) phase.start.value.value phase.start.parts.value.items result.journal result.value result.parts.items }
    ensures count { length result.parts.items ≡ phase.seats }
    ensures later { D.faults phase.start.value.value.group.disk ≤ D.faults result.value.group.disk }
{
    let (turn, room) = phase.lend();
    match Arc::new(alloc, Stage { turn, hall }) {
        Ok(stage) => {
            let stage = play_staged(rt, alloc, pool, stage, &mut desks, errands, gate);
            let Stage { turn, hall: _ } = stage;
            Phase::back(turn, room).close(desks)
        }
        Err(refused) => {
            let Stage { turn, hall: _ } = refused.value;
            close_unplayed(Phase::back(turn, room), desks)
        }
    }
}

// The room for so many members' work, and the hall.
fn room_for<'g, D: Disk, C: CacheFace, P: Policy, G>(
    alloc: Global,
    count: usize,
) -> Result<(Errands<'g, D, C, P, G>, Hall), NoMemory>
    ensures { IfOk result (λ r. (r.0.items ≡ []) × (count ≤ vec_capacity r.0)) }
{
    let hall = Hall::new(alloc, count)?;
    let errands = Vec::with_capacity(alloc, count)?;
    Ok((errands, hall))
}

// Plays the phase in hand with these members.
fn play_with<'g, R: Wait, D: Disk + Drop, C: CacheFace + Drop, P: Policy + Drop, G: Gate>(
    rt: &R,
    alloc: Global,
    pool: &mut Pool<Errand<'g, Shared<D, C, P>, G>>,
    shared: Shared<D, C, P>,
    hands: Vec<Laid<Hand<P>>>,
    gate: &'g G,
) -> Closed<Shared<D, C, P>>
    requires few { (1 ≤ length hands.items) × (length hands.items ≤ 63) }
    ensures leads { result.ended ≡ false → Leads member_in (StepsHand C.directory D.alive D.contents D.faults) shared hands.items result.journal result.value result.parts.items }
    ensures count { length result.parts.items ≡ length hands.items }
    ensures later { D.faults shared.group.disk ≤ D.faults result.value.group.disk }
{
    let Ok((errands, hall)) = room_for(alloc, hands.len()) else {
        return unplayed(alloc, shared, hands);
    };
    match Phase::open(alloc, shared, hands) {
        Ok((phase, desks)) => play_at(rt, alloc, pool, phase, desks, errands, hall, gate),
        Err((NoMemory, shared, hands)) => unplayed(alloc, shared, hands),
    }
}

// The group once a phase is played. Where memory was wanting, that is its fault.
fn settled<D: Disk, C: CacheFace, P: Policy>(
    mut group: Group<D, C, P>,
    is_wanting: bool,
) -> Group<D, C, P>
    ensures looked { is_wanting ≡ false → IsLooked group result }
    ensures wanting { is_wanting ≡ true → result.fault ≡ Some fault.NoMemory }
    ensures disk { (result.disk ≡ group.disk) × (result.journal ≡ group.journal) }
{
    group.crew.is_own_stale = true;
    group.crew.find_ready();
    if is_wanting {
        group.fault = Some(RunFault::NoMemory);
    }
    group
}

// Plays the phase in hand by a group that is taken apart, and puts the group together again. The rack is given back.
fn play_apart<'g, R: Wait, D: Disk + Drop, C: CacheFace + Drop, P: Policy + Drop, G: Gate>(
    rt: &R,
    alloc: Global,
    pool: &mut Pool<Errand<'g, Shared<D, C, P>, G>>,
    apart: Apart<D, C, P>,
    gate: &'g G,
) -> (Group<D, C, P>, Rack<P>)
    requires few { (1 ≤ length apart.hands.items) × (length apart.hands.items ≤ 63) }
    requires room { length apart.hands.items ≤ apart.room }
    ensures runs { (old : AnyGroup D C P) → apart.shared.group ≡ record old { crew = record old.crew { parts = apart.shared.group.crew.parts } } → parts_in apart.hands.items ≡ old.crew.parts.items → (result.0.fault ≡ Some fault.NoMemory) ⊎ RunsFrom C.directory D.alive D.contents D.faults old result.0 }
    ensures later { D.faults apart.shared.group.disk ≤ D.faults result.0.disk }
    ensures rack { result.1 ≡ length apart.hands.items }
{
    let Apart {
        mut shared,
        hands,
        room,
    } = apart;
    shared.find_all_listening(&hands);
    let Closed {
        value,
        parts,
        journal: _,
        ended,
    } = play_with(rt, alloc, pool, shared, hands, gate);
    let (group, rack) = put_together(value, parts, room);
    (settled(group, ended), rack)
}

/// Plays the phase in hand to its end, each member in a thread of its own, or in this one where that hasn't come to it. Where memory was
/// wanting, that is the group's fault. The rack is lent to it: the members' hands lie there meanwhile.
/// A group whose members the numbers of events can't all name, or for which the rack isn't made, is left as it is.
pub fn play_phase<'g, R: Wait, D: Disk + Drop, C: CacheFace + Drop, P: Policy + Drop, G: Gate>(
    rt: &R,
    alloc: Global,
    pool: &mut Pool<Errand<'g, Shared<D, C, P>, G>>,
    group: Group<D, C, P>,
    rack: &mut Rack<P>,
    gate: &'g G,
) -> Group<D, C, P>
    ensures runs { (result.fault ≡ Some fault.NoMemory) ⊎ RunsFrom C.directory D.alive D.contents D.faults group result }
    ensures later { D.faults group.disk ≤ D.faults result.disk }
    ensures rack { rack.new ≡ rack.old }
{
    let count = group.crew.parts.len();
    if count == 0 || count > NAMED || count != rack.count() {
        return group;
    }
    let lent = mem::replace(rack, Rack::empty(alloc));
    let apart = take_apart(group, lent);
    let (group, back) = play_apart(rt, alloc, pool, apart, gate);
    *rack = back;
    group
}
