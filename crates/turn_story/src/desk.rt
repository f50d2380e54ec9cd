//! What one caller works with.
ghost use Rattle.std.specs.Prelude.{◌≡◌, ◌⊎◌, ℕ, true, false};
ghost use Rattle.turn_gate.specs.declared.answer.Look.TheVariants as looked;
ghost use Rattle.turn_gate.specs.Turns.{IfRan, IfRefused, is_refused, Follows, HasRun};
ghost use Rattle.turn_story.specs.Desks.{IsAt};
ghost use Rattle.turn_story.specs.Histories.{number_of, value_after};

use crate::stepping::Stepping;
use crate::told::Told;
use std::alloc::Global;
use std::sync::Wait;
use turn_gate::{Laid, Look, Seat, Turn, Turned};

/// A seat at the turn, with its caller's part, which stays where it lies while the desk goes from thread to thread.
#[derive(Drop)]
pub struct Desk<M: Stepping> {
    pub seat: Seat<Told<M>>,
    pub part: Laid<M::Part>,
}

impl<M: Stepping> Desk<M> {
    /// Runs one event of the desk's caller, after all events so far. It may wait for the turns of other desks.
    /// After `NoMemory` every later turn answers it too, and the part is used no more.
    pub fn take_turn<R: Wait>(
        &mut self,
        rt: &R,
        alloc: Global,
        turn: &Turn<Told<M>>,
        event: u64,
    ) -> Turned
        requires mine { M.caller event ≡ self.old.seat.knows.caller }
        requires at { IsAt M.caller turn.now.id turn.now.start self.old.seat self.old.part }
        ensures at { IsAt M.caller turn.now.id turn.now.start self.new.seat self.new.part }
        ensures knows { Follows self.old.seat.knows self.new.seat.knows }
        ensures ran { IfRan result (λ place. HasRun number_of self.old.seat.knows self.new.seat.knows event place) }
        ensures ended { self.new.seat.knows.ended ≡ is_refused result }
        ensures refused { IfRefused result (((self.new.seat.knows.own ≡ self.old.seat.knows.own) × (self.new.part ≡ self.old.part)) ⊎ ((place : ℕ) × HasRun number_of self.old.seat.knows self.new.seat.knows event place)) }
    {
        self.seat
            .take_turn(rt, alloc, turn, self.part.get_mut(), event)
    }

    /// Which event the desk's caller can run after all events so far, from `from` on. It may wait for the turns of other
    /// desks, and adds no event. After a turn that answered `NoMemory` it is `Over`.
    pub fn look<R: Wait>(&mut self, rt: &R, turn: &Turn<Told<M>>, from: u64) -> Look
        requires at { IsAt M.caller turn.now.id turn.now.start self.old.seat self.old.part }
        ensures at { IsAt M.caller turn.now.id turn.now.start self.new.seat self.new.part }
        ensures same { (self.new.part ≡ self.old.part) × (self.new.seat.knows.own ≡ self.old.seat.knows.own) }
        ensures knows { Follows self.old.seat.knows self.new.seat.knows }
        ensures over { self.new.seat.knows.ended ≡ true → result ≡ looked.Over }
        ensures answer { self.new.seat.knows.ended ≡ false → M.looks (value_after turn.now.start.value.value self.new.seat.knows.seen) self.new.part from result }
    {
        self.seat.look(rt, turn, self.part.get(), from)
    }
}
