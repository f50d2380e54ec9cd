//! A seat at the turn.
ghost use Rattle.std.specs.Prelude.{◌≡◌, [], ◌∷◌};
ghost use Rattle.turn_gate.specs.Ruled.{sits};
ghost use Rattle.turn_gate.specs.Seated.{Sat, sat_code, sat_of, IsSat};

use crate::machine::Machine;
use crate::rule::Place;
use std::marker::Model;
use std::snapshot::Snapshot;

/// The right of one caller to take turns. It knows the journal that its caller has seen, and the caller's own events.
#[derive(Drop)]
pub struct Seat<M: Machine> {
    pub(crate) inner: Place<M>,
    pub(crate) about: Snapshot<Snapshot<M>>,
}

impl<M: Machine> Model for Seat<M> {
    ghost Value = { Sat M.Start M.Entry };

    ghost coded = { sat_code M.Start.code M.Entry.code };

    ghost view = { λ s. sat_of (M.start s.about.value.value) s.inner };

    ghost invariant = { λ s. IsSat (M.start s.about.value.value) s.inner };
}

impl<M: Machine> Seat<M> {
    pub(crate) fn at(inner: Place<M>, about: &Snapshot<M>) -> Seat<M>
        requires { IsSat (M.start about.now.value) inner }
        ensures { result ≡ sat_of (M.start about.now.value) inner }
    {
        Seat {
            inner,
            about: Snapshot::of(about),
        }
    }

    pub(crate) fn into_place(self) -> Place<M>
        ensures { (result.me ≡ (sits (self.knows ∷ []), [])) × (result.table_id ≡ self.turn) }
    {
        let Seat { inner, about: _ } = self;
        inner
    }
}
