//! The thread of a member in a phase.

ghost use Rattle.std.specs.Prelude.{◌≡◌, ◌+◌, ◌*◌, ◌/◌, ◌%◌, ◌<◌, IfSome};
ghost use Rattle.turn_gate.specs.declared.answer.Look.TheVariants as looked;
ghost use Rattle.group_threads.specs.Desks.{IsMemberAt, IfReady};

use crate::gate::Gate;
use crate::hall::Hall;
use crate::hand::{ends_one, next_event, still_asking, wants_others};
use crate::shared::Shared;
use cache_structure::CacheFace;
use crossbeam_utils::CachePadded;
use draw_generator::Generator;
use ds_disk::Disk;
use group_core::Policy;
use group_member::CHOICES;
use std::alloc::Global;
use std::sync::Wait;
use turn_gate::{Look, Turn, Turned};
use turn_story::{Desk, Stepping, Told};

/// How many events a thread takes in a row, while none of its member's transactions ends, before it lets another one, at least, and how
/// many more it may.
const BURST: u64 = 1024;

/// The choice of a member's own duty, which is the last one that it has in a phase.
const DUTY: u64 = 0;

/// The choice that takes and answers queries.
const QUERIES: u64 = 17;

/// How many queries a thread takes in a row before it leaves them until there is news, if it can answer none.
const TAKES: u32 = 8;

/// How often a member's choices are taken in their turn, before one is drawn.
const TURNS: u64 = 4;

/// A member's desk, and what its thread counts.
#[derive(Drop)]
pub struct Worker<M: Stepping> {
    pub desk: Desk<M>,
    /// How many events of the phase the member has had.
    pub(crate) command_number: CachePadded<u64>,
    /// From which event on it looks for the next.
    pub(crate) from: u64,
    /// Whether it has had an event in this round.
    pub(crate) has_run: bool,
    /// How many more events it takes before it passes the floor on.
    pub(crate) burst: u64,
    /// What it draws from.
    pub(crate) generator: Generator,
    /// The choices, by their bits, that wait for answers of others.
    pub(crate) asking: u32,
    /// How many queries it has taken in a row and not answered.
    pub(crate) takes: u32,
    /// Whether its last event was its own duty.
    pub(crate) is_done: bool,
}

impl<M: Stepping> Worker<M> {
    pub fn new(desk: Desk<M>) -> Worker<M>
        ensures { result.desk ≡ desk }
    {
        Worker {
            desk,
            command_number: CachePadded::new(0),
            from: 0,
            has_run: false,
            burst: BURST,
            generator: Generator::new(0),
            asking: 0,
            takes: 0,
            is_done: false,
        }
    }

    /// The desk alone.
    pub fn into_desk(self) -> Desk<M>
        ensures { result ≡ self.desk }
    {
        let Worker {
            desk,
            command_number: _,
            from: _,
            has_run: _,
            burst: _,
            generator: _,
            asking: _,
            takes: _,
            is_done: _,
        } = self;
        desk
    }

    /// Whether it has had an event in this round.
    pub fn has_run(&self) -> bool {
        self.has_run
    }
}

impl<D: Disk, C: CacheFace, P: Policy> Worker<Shared<D, C, P>> {
    // The event that was ready when the member had its last one, and doesn't wait for an answer.
    fn own_event(&self, number: u64) -> Option<u64>
        requires { number < 64 }
        ensures { IfSome result (λ event. event % 64 ≡ number) }
    {
        if self.desk.part.get().part.is_stale {
            return None;
        }
        let ready = self.desk.part.get().part.ready & !self.asking;
        next_event(ready, number, self.from)
    }

    // Whether the member has nothing to do but to ask once more for answers.
    fn is_asking(&self) -> bool {
        self.desk.part.get().part.ready & self.asking != 0
    }

    // What the member with this number takes next: what was ready behind its last event, or what is found in a turn.
    fn find_event<R: Wait>(
        &mut self,
        rt: &R,
        turn: &Turn<Told<Shared<D, C, P>>>,
        number: u64,
    ) -> Look
        requires number { number < 64 }
        requires at { IsMemberAt turn.now number self.old.desk.seat self.old.desk.part }
        ensures at { IsMemberAt turn.now number self.new.desk.seat self.new.desk.part }
        ensures mine { IfReady result (λ event. event % 64 ≡ number) }
    {
        if let Some(event) = self.own_event(number) {
            return Look::Ready(event);
        }
        if self.is_asking() {
            return Look::NotYet;
        }
        let from = self.from;
        match self.desk.look(rt, turn, from) {
            Look::Ready(event) => Look::Ready(event / 64 * 64 + number),
            found => found,
        }
    }

    // From where the next event is looked for: the choices come in turn, but now and then one is drawn. Members whose choices came in
    // turn alone could take each other's copies of pages for ever where the cache has hardly room for them.
    fn next_from(&mut self, event: u64) -> u64
        ensures { self.new.desk ≡ self.old.desk }
    {
        if self.generator.draw_below(TURNS) == 0 {
            self.generator.draw_below(CHOICES) * 64
        } else {
            event.wrapping_add(1)
        }
    }

    // Takes an event in a turn, once the gate lets it pass. Answers whether there was memory for it.
    fn take_event<R: Wait, G: Gate>(
        &mut self,
        rt: &R,
        alloc: Global,
        turn: &Turn<Told<Shared<D, C, P>>>,
        gate: &G,
        number: u64,
        event: u64,
    ) -> bool
        requires mine { event % 64 ≡ number }
        requires at { IsMemberAt turn.now number self.old.desk.seat self.old.desk.part }
        ensures at { IsMemberAt turn.now number self.new.desk.seat self.new.desk.part }
    {
        let command_number = self.command_number.wrapping_add(1);
        self.command_number = CachePadded::new(command_number);
        self.note_end(event);
        self.from = self.next_from(event);
        self.has_run = true;
        gate.pass(self.desk.part.get().part.id, command_number);
        self.desk.take_turn(rt, alloc, turn, event) != Turned::NoMemory
    }

    // Notes which choices wait for answers behind an event. It may have given one that did something else to do, as a page to yield.
    fn note_asking(&mut self, event: u64)
        ensures { self.new.desk ≡ self.old.desk }
    {
        self.note_take(event);
        self.is_done = event / 64 == DUTY;
        let mut asking = self.asking | self.desk.part.get().asks;
        if self.takes >= TAKES {
            asking |= 1 << QUERIES;
        }
        self.asking = still_asking(&self.desk.part.get().part, asking);
    }

    // A transaction that ends is what the floor was had for: the member may go on as long again.
    fn note_end(&mut self, event: u64)
        ensures { self.new.desk ≡ self.old.desk }
    {
        if ends_one(&self.desk.part.get().part, event / 64) {
            self.burst = BURST;
        }
    }

    // Counts an event that took a query which can't be answered yet.
    fn note_take(&mut self, event: u64)
        ensures { self.new.desk ≡ self.old.desk }
    {
        let is_left = event / 64 == QUERIES && wants_others(&self.desk.part.get().part, QUERIES);
        self.takes = if is_left {
            self.takes.saturating_add(1)
        } else {
            0
        };
    }

    // Passes the floor on, where the member has nothing to do. What waits for an answer asks again behind it.
    fn rest(&mut self, hall: &Hall, number: u64)
        ensures { self.new.desk ≡ self.old.desk }
    {
        self.asking = 0;
        hall.rest(number, self.is_done);
    }

    // Passes the floor on, where the member has had it long enough. What waits for an answer asks again behind it.
    fn yield_floor(&mut self, hall: &Hall, number: u64)
        ensures { self.new.desk ≡ self.old.desk }
    {
        self.burst = self.burst.saturating_sub(1);
        if self.burst == 0 {
            self.burst = BURST + self.generator.draw_below(BURST);
            self.asking = 0;
            hall.offer(number);
        }
    }

    // Takes the next event, if there is one, and tells whom it concerns; or passes the floor on. Answers whether anything may follow in
    // this phase.
    fn work_once<R: Wait, G: Gate>(
        &mut self,
        rt: &R,
        alloc: Global,
        turn: &Turn<Told<Shared<D, C, P>>>,
        hall: &Hall,
        gate: &G,
        number: u64,
    ) -> bool
        requires number { number < 64 }
        requires at { IsMemberAt turn.now number self.old.desk.seat self.old.desk.part }
        ensures at { IsMemberAt turn.now number self.new.desk.seat self.new.desk.part }
    {
        match self.find_event(rt, turn, number) {
            Look::Ready(event) => {
                if hall.is_closed() || !self.take_event(rt, alloc, turn, gate, number, event) {
                    hall.close();
                    return false;
                }
                hall.tell(self.desk.part.get().concerned);
                self.note_asking(event);
                self.yield_floor(hall, number);
                true
            }
            Look::NotYet => {
                self.rest(hall, number);
                true
            }
            Look::Over => {
                hall.close();
                false
            }
        }
    }

    /// Takes the events of a round, as the member with this number.
    pub fn work<R: Wait, G: Gate>(
        &mut self,
        rt: &R,
        alloc: Global,
        turn: &Turn<Told<Shared<D, C, P>>>,
        hall: &Hall,
        gate: &G,
        number: u64,
    )
        requires number { number < 64 }
        requires at { IsMemberAt turn.now number self.old.desk.seat self.old.desk.part }
        ensures at { IsMemberAt turn.now number self.new.desk.seat self.new.desk.part }
    {
        self.has_run = false;
        self.asking = 0;
        if self.generator.state() == 0 {
            self.generator = Generator::new(number);
        }
        for _ in rt.forever() {
            hall.come(rt, number, self.has_run);
            if hall.is_closed() || !self.work_once(rt, alloc, turn, hall, gate, number) {
                return;
            }
            if !hall.goes_on(number) {
                hall.go_out(number);
                return;
            }
        }
        unreachable!()
    }
}
