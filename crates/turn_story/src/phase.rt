//! A value that its callers' desks work at, one event a turn.
ghost use Rattle.std.specs.Prelude.{◌≡◌, ◌^◌, ◌<◌, ◌≤◌, [], length, map, false, IfOk, IfErr, vec_capacity};
ghost use Rattle.turn_gate.specs.Seated.{NoneEnded};
ghost use Rattle.turn_story.specs.Chains.{Leads};
ghost use Rattle.turn_story.specs.Desks.{AllAt, AllRan};

use crate::desk::Desk;
use crate::row::{put_together, take_apart};
use crate::stepping::Stepping;
use crate::told::Told;
use ds_base::NoMemory;
use std::alloc::Global;
use std::marker::Model;
use turn_gate::{Journal, Laid, Seat, Turn};

/// A turn at a value, with the room that its desks came from.
#[derive(Drop)]
pub struct Phase<M: Stepping> {
    turn: Turn<Told<M>>,
    seats: Vec<Seat<Told<M>>>,
    parts: Vec<Laid<M::Part>>,
}

/// What is left of a phase whose turn is out: the room that its desks came from. Contracts see for how many desks it is.
#[derive(Drop)]
pub struct Room<M: Stepping> {
    seats: Vec<Seat<Told<M>>>,
    parts: Vec<Laid<M::Part>>,
}

/// What a phase leaves. `ended` says that a turn was refused for want of memory.
#[derive(Drop)]
pub struct Closed<M: Stepping> {
    pub value: M,
    pub parts: Vec<Laid<M::Part>>,
    pub journal: Journal,
    pub ended: bool,
}

impl<M: Stepping> Model for Phase<M> {
    ghost use Rattle.std.specs.Prelude.{◌≡◌, ◌≤◌, [], length, vec_capacity};
    ghost use Rattle.turn_gate.specs.Seated.{Gate};
    ghost use Rattle.turn_story.specs.declared.step.Start.{Start};

    ghost Value = { Gate (Start M M.Part) };

    ghost view = { λ p. p.turn };

    ghost invariant = { λ p. (p.seats.items ≡ []) × (p.parts.items ≡ []) × (p.turn.seats ≤ vec_capacity p.seats) × (p.turn.seats ≤ vec_capacity p.parts) × (length p.turn.start.parts.value.items ≡ p.turn.seats) };
}

impl<M: Stepping> Model for Room<M> {
    ghost use Rattle.std.specs.Prelude.{ℕ, ◌≡◌, [], min, vec_capacity};

    ghost Value = { ℕ };

    ghost view = { λ r. min (vec_capacity r.seats) (vec_capacity r.parts) };

    ghost invariant = { λ r. (r.seats.items ≡ []) × (r.parts.items ≡ []) };
}

impl<M: Stepping> Phase<M> {
    /// A turn at the value, and a desk for each part: the k-th, counted from 1, is caller k's.
    ///
    /// The refusal comes for want of memory alone, and hands the value and the parts back as they were.
    pub fn open(
        alloc: Global,
        value: M,
        mut parts: Vec<Laid<M::Part>>,
    ) -> Result<(Phase<M>, Vec<Desk<M>>), (NoMemory, M, Vec<Laid<M::Part>>)>
        requires { (1 ≤ length parts.items) × (length parts.items < 2 ^ 32) }
        ensures phase { IfOk result (λ r. (r.0.seats ≡ length parts.items) × (r.0.start.value.value ≡ value) × (r.0.start.parts.value.items ≡ parts.items)) }
        ensures desks { IfOk result (λ r. (length r.1.items ≡ length parts.items) × AllAt M.caller r.0.id r.0.start r.1.items (λ d. d.seat) (λ d. d.part) 1) }
        ensures err { IfErr result (λ r. (r.1 ≡ value) × (r.2.items ≡ parts.items)) }
    {
        let Ok(desks) = Vec::with_capacity(alloc, parts.len()) else {
            return Err((NoMemory, value, parts));
        };
        let told = Told::new(value, &parts);
        let journal = Journal::new(alloc);
        match Turn::new(alloc, told, journal, parts.as_slice()) {
            Ok((turn, mut seats)) => {
                let desks = put_together(&mut seats, &mut parts, desks);
                Ok((Phase { turn, seats, parts }, desks))
            }
            Err((no_memory, told, _)) => {
                desks.destroy_empty();
                Err((no_memory, told.into_value(), parts))
            }
        }
    }

    /// What the desks take their turns at.
    pub fn turn(&self) -> &Turn<Told<M>>
        ensures { result.now ≡ self.now }
    {
        &self.turn
    }

    /// The turn by itself, for threads that share it.
    pub fn lend(self) -> (Turn<Told<M>>, Room<M>)
        ensures turn { result.0 ≡ self }
        ensures room { self.seats ≤ result.1 }
        ensures parts { length self.start.parts.value.items ≡ self.seats }
    {
        let Phase { turn, seats, parts } = self;
        (turn, Room { seats, parts })
    }

    /// The phase whose turn is back.
    pub fn back(turn: Turn<Told<M>>, room: Room<M>) -> Phase<M>
        requires room { turn.seats ≤ room }
        requires parts { length turn.start.parts.value.items ≡ turn.seats }
        ensures { result ≡ turn }
    {
        let Room { seats, parts } = room;
        Phase { turn, seats, parts }
    }

    /// Gives back the value, the parts and the journal that leads to them. It takes all the phase's desks.
    pub fn close(self, desks: Vec<Desk<M>>) -> Closed<M>
        requires count { length desks.items ≡ self.seats }
        requires at { AllAt M.caller self.id self.start desks.items (λ d. d.seat) (λ d. d.part) 1 }
        ensures parts { result.parts.items ≡ map (λ d. d.part) desks.items }
        ensures leads { result.ended ≡ false → Leads M.caller M.steps self.start.value.value self.start.parts.value.items result.journal result.value result.parts.items }
        ensures later { M.tally self.start.value.value ≤ M.tally result.value }
        ensures ran { AllRan M.caller desks.items (λ d. d.seat) result.journal }
        ensures refused { NoneEnded (map (λ d. d.seat) desks.items) → result.ended ≡ false }
    {
        let Phase {
            turn,
            mut seats,
            mut parts,
        } = self;
        take_apart(desks, &mut seats, &mut parts);
        let (told, journal, ended) = turn.close(seats);
        Closed {
            value: told.into_value(),
            parts,
            journal,
            ended,
        }
    }
}
