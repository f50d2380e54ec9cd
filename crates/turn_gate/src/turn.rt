//! Turns at a shared machine.
ghost use Rattle.std.specs.Prelude.{◌≡◌, ◌⊎◌, ℕ, ◌^◌, ◌<◌, ◌≤◌, List, [], ◌∷◌, length, map, true, false, vec_capacity, IfOk, IfErr, Some};
ghost use Rattle.turn_gate.specs.declared.answer.Look.TheVariants as looked;
ghost use Rattle.turn_gate.specs.Known.{newcomers};
ghost use Rattle.turn_gate.specs.Places.{IsGate};
ghost use Rattle.turn_gate.specs.Ruled.{sits};
ghost use Rattle.turn_gate.specs.Seated.{Gate, gate_code, Sat, first_seats, AreOf, HasAll, PartsReach, NoneEnded, knowledge_of};
ghost use Rattle.turn_gate.specs.Turns.{IfRan, IfRefused, is_refused, Follows, HasRun};

use crate::answer::{Look, Turned};
use crate::kept::Kept;
use crate::laid::Laid;
use crate::machine::Machine;
use crate::rule::{Key, Knows, Law, OffFirst, Place, SERVING, Slot, Together, Top};
use crate::seat::Seat;
use crate::visit::{look_in_turn, run_in_turn};
use atomic_table::{Refused, Table};
use ds_base::{NoMemory, Sequence};
use std::alloc::Global;
use std::marker::Model;
use std::snapshot::Snapshot;
use std::sync::Wait;
use std::sync::atomic::{AtomicU64, Ordering};

/// The event numbers that a machine has run, in order.
pub type Journal = Sequence<u64>;

/// A machine with its journal, at which seats take turns. Threads share it by reference.
#[derive(Drop)]
pub struct Turn<M: Machine> {
    table: Table<Slot<M>, Knows<M>, Key<M>, Law<M>, Global>,
    seats: u64,
    parked: AtomicU64,
}

impl<M: Machine> Model for Turn<M> {
    ghost Value = { Gate M.Start };

    ghost coded = { gate_code M.Start.code };

    ghost view = { λ t. record { id = t.table.shared.table_id; seats = t.seats; start = M.start t.table.shared.key.1.value } };

    ghost invariant = { λ t. IsGate t.table.shared.table_id × (t.seats ≡ t.table.shared.key.0) × (1 ≤ t.seats) };
}

impl<M: Machine> Turn<M> {
    // Wakes one thread for each seat, if a seat may be parked. A seat that parks later finds that the turn was passed on.
    fn wake(&self) {
        if self.parked.load(Ordering::SeqCst) == 0 {
            return;
        }
        for _ in 0..self.seats {
            self.table.shared.wake_one(SERVING);
        }
    }

    // The seats of the callers from 1 on, cut off one by one.
    fn deal(
        table: &Top<M>,
        about: &Snapshot<M>,
        mut place: Place<M>,
        mut row: Vec<Seat<M>>,
        count: u64,
    ) -> Vec<Seat<M>>
        requires table { (place.table_id ≡ table.now.table_id) × IsGate table.now.table_id }
        requires room { (1 ≤ count) × (row.items ≡ []) × (count ≤ vec_capacity row) }
        requires first { place.me ≡ (sits (newcomers (λ x. M.caller (M.event_of x)) (M.start about.now.value) (M.story about.now.value) 1 count), []) }
        ensures { result.items ≡ first_seats (λ x. M.caller (M.event_of x)) table.now.table_id (M.start about.now.value) (M.story about.now.value) count }
    {
        for _ in 1..count {
            let next = table.split_seat::<OffFirst>(&mut place);
            row.push_reserved(Seat::at(place, about));
            place = next;
        }
        row.push_reserved(Seat::at(place, about));
        row
    }

    /// A turn at the machine, and a seat for each part: the k-th, counted from 1, is caller k's.
    ///
    /// The refusal comes for want of memory alone, and hands the machine and the journal back as they were.
    pub fn new<P>(
        alloc: Global,
        machine: M,
        journal: Journal,
        parts: &[P],
    ) -> Result<(Turn<M>, Vec<Seat<M>>), (NoMemory, M, Journal)>
        requires parts { (1 ≤ length parts.now) × (length parts.now < 2 ^ 32) }
        requires stands { M.sound machine × (journal ≡ map M.event_of (M.story machine)) }
        ensures turn { IfOk result (λ r. (r.0.seats ≡ length parts.now) × (r.0.start ≡ M.start machine)) }
        ensures seats { IfOk result (λ r. r.1.items ≡ first_seats (λ x. M.caller (M.event_of x)) r.0.id (M.start machine) (M.story machine) (length parts.now)) }
        ensures err { IfErr result (λ r. (r.1 ≡ machine) × (r.2 ≡ journal)) }
    {
        let Ok(row) = Vec::with_capacity(alloc, parts.len()) else {
            return Err((NoMemory, machine, journal));
        };
        let Ok(slots) = Vec::with_capacity(alloc, 1) else {
            return Err((NoMemory, machine, journal));
        };
        Turn::seated(
            alloc,
            machine,
            journal.into_vec(),
            parts.len() as u64,
            row,
            slots,
        )
    }

    // The turn over the slot, once there is room for the seats.
    fn seated(
        alloc: Global,
        machine: M,
        journal: Vec<u64>,
        count: u64,
        row: Vec<Seat<M>>,
        slots: Vec<Slot<M>>,
    ) -> Result<(Turn<M>, Vec<Seat<M>>), (NoMemory, M, Journal)>
        requires count { (1 ≤ count) × (count < 2 ^ 32) }
        requires room { (row.items ≡ []) × (count ≤ vec_capacity row) × (slots.items ≡ []) × (1 ≤ vec_capacity slots) }
        requires stands { M.sound machine × (journal.items ≡ map M.event_of (M.story machine)) }
        ensures turn { IfOk result (λ r. (r.0.seats ≡ count) × (r.0.start ≡ M.start machine)) }
        ensures seats { IfOk result (λ r. r.1.items ≡ first_seats (λ x. M.caller (M.event_of x)) r.0.id (M.start machine) (M.story machine) count) }
        ensures err { IfErr result (λ r. (r.1 ≡ machine) × (r.2 ≡ journal.items)) }
    {
        let kept = Kept {
            machine,
            journal,
            ended: false,
        };
        match Laid::new(alloc, kept) {
            Ok(kept) => Turn::over_slot(alloc, kept, count, row, slots),
            Err(kept) => Err(Turn::not_laid(kept, slots)),
        }
    }

    // The turn over the slot, once its machine lies where it is to stay.
    fn over_slot(
        alloc: Global,
        kept: Laid<Kept<M>>,
        count: u64,
        row: Vec<Seat<M>>,
        mut slots: Vec<Slot<M>>,
    ) -> Result<(Turn<M>, Vec<Seat<M>>), (NoMemory, M, Journal)>
        requires count { (1 ≤ count) × (count < 2 ^ 32) }
        requires room { (row.items ≡ []) × (count ≤ vec_capacity row) × (slots.items ≡ []) × (1 ≤ vec_capacity slots) }
        requires stands { M.sound kept.machine × (kept.journal.items ≡ map M.event_of (M.story kept.machine)) × (kept.ended ≡ false) }
        ensures turn { IfOk result (λ r. (r.0.seats ≡ count) × (r.0.start ≡ M.start kept.machine)) }
        ensures seats { IfOk result (λ r. r.1.items ≡ first_seats (λ x. M.caller (M.event_of x)) r.0.id (M.start kept.machine) (M.story kept.machine) count) }
        ensures err { IfErr result (λ r. (r.1 ≡ kept.machine) × (r.2 ≡ kept.journal.items)) }
    {
        let about = (count, Snapshot::of(&kept.get().machine));
        let words = [0, 0, kept.count()];
        slots.push_reserved(Some(kept));
        match Table::new(alloc, &words, slots, &about) {
            Ok((table, place)) => {
                let seats = Turn::deal(&table.shared, &about.1, place, row, count);
                Ok((
                    Turn {
                        table,
                        seats: count,
                        parked: AtomicU64::new(0),
                    },
                    seats,
                ))
            }
            Err(refused) => Err(Turn::given_back(refused)),
        }
    }

    // What there was no memory for, where nothing lies in the slot.
    fn not_laid(kept: Kept<M>, slots: Vec<Slot<M>>) -> (NoMemory, M, Journal)
        requires { slots.items ≡ [] }
        ensures { (result.1 ≡ kept.machine) × (result.2 ≡ kept.journal.items) }
    {
        slots.destroy_empty();
        let (machine, journal, _) = kept.into_parts();
        (NoMemory, machine, journal)
    }

    // What was to lie in the slot.
    fn given_back(refused: Refused<Slot<M>, Global>) -> (NoMemory, M, Journal)
        requires { (kept : Kept M) × (refused.slots.items ≡ Some kept ∷ []) }
        ensures { (kept : Kept M) → refused.slots.items ≡ Some kept ∷ [] → (result.1 ≡ kept.machine) × (result.2 ≡ kept.journal.items) }
    {
        let Refused { mut slots } = refused;
        let Some(Some(kept)) = slots.pop() else {
            unreachable!()
        };
        slots.destroy_empty();
        let (machine, journal, _) = kept.into_parts();
        (NoMemory, machine, journal)
    }

    // The seats, joined into one.
    fn gather(table: &Top<M>, mut seats: Vec<Seat<M>>) -> Place<M>
        requires table { IsGate table.now.table_id }
        requires seats { (1 ≤ length seats.items) × AreOf table.now.table_id seats.items }
        ensures table { result.table_id ≡ table.now.table_id }
        ensures all { result.me ≡ (sits (map knowledge_of seats.items), []) }
    {
        let Some(last) = seats.pop() else {
            unreachable!()
        };
        let mut place = last.into_place();
        while let Some(seat) = seats.pop() {
            let mut next = seat.into_place();
            table.join_seat::<Together>(&mut next, place);
            place = next;
        }
        seats.destroy_empty();
        place
    }

    /// Gives the machine back, with the journal that leads to it, and whether a turn was refused for want of memory.
    /// It takes all the turn's seats.
    pub fn close(self, seats: Vec<Seat<M>>) -> (M, Journal, bool)
        requires { (length seats.items ≡ self.seats) × AreOf self.id seats.items }
        ensures start { M.start result.0 ≡ self.start }
        ensures stands { result.1 ≡ map M.event_of (M.story result.0) }
        ensures own { HasAll (λ x. M.caller (M.event_of x)) (M.story result.0) seats.items }
        ensures parts { PartsReach M.parted (M.story result.0) seats.items }
        ensures refused { NoneEnded seats.items → result.2 ≡ false }
        ensures lasts { result.2 ≡ false → NoneEnded seats.items }
        ensures sound { result.2 ≡ false → M.sound result.0 }
    {
        let place = Turn::gather(&self.table.shared, seats);
        let Turn {
            table,
            seats: _,
            parked: _,
        } = self;
        let mut closed = table.close_with(place);
        let Some(kept) = closed.take(0) else {
            unreachable!()
        };
        closed.free();
        kept.into_parts()
    }
}

impl<M: Machine> Seat<M> {
    /// Runs one event of the seat's caller, after all events so far. It may wait for the turns of other seats.
    ///
    /// Room in the journal is taken first; where there is none, nothing is done. Where memory runs out while the event is run,
    /// the event is the journal's last, and the part is used no more. After either, every later turn answers `NoMemory`.
    pub fn take_turn<R: Wait>(
        &mut self,
        rt: &R,
        alloc: Global,
        turn: &Turn<M>,
        part: &mut M::Part,
        event: u64,
    ) -> Turned
        requires turn { self.old.turn ≡ turn.now.id }
        requires mine { M.caller event ≡ self.old.knows.caller }
        requires part { self.old.knows.ended ≡ false → M.parted self.old.knows.caller part.old self.old.knows.start self.old.knows.seen }
        ensures turn { self.new.turn ≡ self.old.turn }
        ensures knows { Follows self.old.knows self.new.knows }
        ensures ran { IfRan result (λ place. HasRun M.event_of self.old.knows self.new.knows event place) }
        ensures part { IfRan result (λ place. M.parted self.new.knows.caller part.new self.new.knows.start self.new.knows.seen) }
        ensures ended { self.new.knows.ended ≡ is_refused result }
        ensures refused { IfRefused result (((self.new.knows.own ≡ self.old.knows.own) × (part.new ≡ part.old)) ⊎ ((place : ℕ) × HasRun M.event_of self.old.knows self.new.knows event place)) }
        ensures lasts { self.old.knows.ended ≡ true → part.new ≡ part.old }
    {
        let turned = run_in_turn(
            rt,
            alloc,
            &turn.table.shared,
            &turn.parked,
            &mut self.inner,
            part,
            event,
        );
        turn.wake();
        turned
    }

    /// What the machine answers after all events so far: which event the part's caller can run, from `from` on.
    /// It may wait for the turns of other seats, and adds no event. After a turn that answered `NoMemory` it is `Over`.
    pub fn look<R: Wait>(&mut self, rt: &R, turn: &Turn<M>, part: &M::Part, from: u64) -> Look
        requires turn { self.old.turn ≡ turn.now.id }
        requires part { self.old.knows.ended ≡ false → M.parted self.old.knows.caller part.now self.old.knows.start self.old.knows.seen }
        ensures turn { self.new.turn ≡ self.old.turn }
        ensures knows { Follows self.old.knows self.new.knows }
        ensures own { self.new.knows.own ≡ self.old.knows.own }
        ensures over { self.new.knows.ended ≡ true → result ≡ looked.Over }
        ensures answer { self.new.knows.ended ≡ false → M.answers self.new.knows.start self.new.knows.seen part.now from result }
        ensures part { self.new.knows.ended ≡ false → M.parted self.new.knows.caller part.now self.new.knows.start self.new.knows.seen }
    {
        let found = look_in_turn(
            rt,
            &turn.table.shared,
            &turn.parked,
            &mut self.inner,
            part,
            from,
        );
        turn.wake();
        found
    }
}
