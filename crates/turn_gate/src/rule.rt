//! The table, and what each step on it tells.
use crate::kept::Kept;
use crate::laid::Laid;
use crate::machine::Machine;
use crate::view::View;
use atomic_table::{Join, Play, Seat, Shared, Split, TableRule};
use std::marker::PhantomData;
use std::snapshot::Snapshot;

/// The number of the seats, and the machine at the start.
pub(crate) type Key<M> = (u64, Snapshot<M>);

/// What a seat at the table knows.
pub(crate) type Knows<M> = View<<M as Machine>::Start, <M as Machine>::Entry>;

/// What lies in the slot while no seat has it. The machine may be large: it stays where it is while it goes from seat to seat.
pub(crate) type Slot<M> = Option<Laid<Kept<M>>>;

/// The words and the slot of a turn, as all threads see them.
pub(crate) type Top<M> = Shared<Slot<M>, Knows<M>, Key<M>, Law<M>>;

/// A seat at the table, for one caller or for several.
pub(crate) type Place<M> = Seat<Slot<M>, Knows<M>>;

/// The next ticket.
pub(crate) const TICKET: usize = 0;

/// The ticket that is served. Who waits for its own parks on this word.
pub(crate) const SERVING: usize = 1;

/// How many events the journal has.
pub(crate) const COUNT: usize = 2;

/// What holds between any two steps.
pub struct Law<M> {
    machine: PhantomData<M>,
}

impl<M: Machine> TableRule<Slot<M>, View<M::Start, M::Entry>, Key<M>> for Law<M> {
    ghost use Rattle.turn_gate.specs.Known.{newcomers};
    ghost use Rattle.turn_gate.specs.Ruled.{Ruled, sits};
    ghost use Rattle.turn_gate.specs.Told.{Good, ended_of};

    ghost holds = { λ key. Ruled (Good M.event_of M.start M.story M.sound) ended_of (λ x. M.caller (M.event_of x)) key.0 (M.start key.1.value) };

    ghost first = { λ key. sits (newcomers (λ x. M.caller (M.event_of x)) (M.start key.1.value) (M.story key.1.value) 1 key.0) };
}

/// A ticket is drawn.
pub struct Draw<M> {
    machine: PhantomData<M>,
}

impl<M: Machine> Play<Slot<M>, View<M::Start, M::Entry>> for Draw<M> {
    ghost use Rattle.turn_gate.specs.Ruled.{Drawn};
    ghost use Rattle.turn_gate.specs.Told.{Good, ended_of};

    ghost then = { Drawn (Good M.event_of M.start M.story M.sound) ended_of (λ x. M.caller (M.event_of x)) };
}

/// The ticket that is served is looked at. Where it is the seat's own, the seat takes the slot.
pub struct LookServed<M> {
    machine: PhantomData<M>,
}

impl<M: Machine> Play<Slot<M>, View<M::Start, M::Entry>> for LookServed<M> {
    ghost use Rattle.turn_gate.specs.Ruled.{Looked};
    ghost use Rattle.turn_gate.specs.Told.{Good, ended_of};

    ghost then = { Looked (Good M.event_of M.start M.story M.sound) ended_of (λ x. M.caller (M.event_of x)) };
}

/// The count is raised by one event.
pub struct Raise<M> {
    machine: PhantomData<M>,
}

impl<M: Machine> Play<Slot<M>, View<M::Start, M::Entry>> for Raise<M> {
    ghost use Rattle.turn_gate.specs.Ruled.{Raised};
    ghost use Rattle.turn_gate.specs.Told.{Good, ended_of};

    ghost then = { Raised (Good M.event_of M.start M.story M.sound) ended_of (λ x. M.caller (M.event_of x)) };
}

/// The turn is passed on, and the slot given back.
pub struct Pass<M> {
    machine: PhantomData<M>,
}

impl<M: Machine> Play<Slot<M>, View<M::Start, M::Entry>> for Pass<M> {
    ghost use Rattle.turn_gate.specs.Ruled.{Passed};
    ghost use Rattle.turn_gate.specs.Told.{Good, ended_of};

    ghost then = { Passed (Good M.event_of M.start M.story M.sound) ended_of (λ x. M.caller (M.event_of x)) };
}

/// The seat of the first caller is kept, and the new one has the others.
pub struct OffFirst;

impl<B, E> Split<View<B, E>> for OffFirst {
    ghost use Rattle.turn_gate.specs.Ruled.{kept_part, given_part};

    ghost left = { kept_part };

    ghost right = { given_part };
}

/// One seat for the callers of both.
pub struct Together;

impl<B, E> Join<View<B, E>> for Together {
    ghost use Rattle.turn_gate.specs.Ruled.{both, spent};

    ghost both = { both };

    ghost spent = { spent };
}
