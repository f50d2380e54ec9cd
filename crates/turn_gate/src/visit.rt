//! One turn of a seat, without the waking of the others.
ghost use Rattle.std.specs.Prelude.{◌≡◌, ◌⊎◌, ℕ, List, [], ◌∷◌, true, false};
ghost use Rattle.turn_gate.specs.declared.answer.Look.TheVariants as looked;
ghost use Rattle.turn_gate.specs.declared.view.Knowledge.{Knowledge};
ghost use Rattle.turn_gate.specs.Places.{IsSame, IsGate};
ghost use Rattle.turn_gate.specs.Ruled.{sits};
ghost use Rattle.turn_gate.specs.Turns.{IfRan, IfRefused, is_refused, Follows, HasRun};

use crate::answer::{Look, Turned};
use crate::machine::Machine;
use crate::rule::{Place, Top};
use crate::steps::{enter, finish, leave};
use ds_base::NoMemory;
use std::alloc::Global;
use std::sync::Wait;
use std::sync::atomic::AtomicU64;

// Runs an event in the seat's next turn.
pub(crate) fn run_in_turn<M: Machine, R: Wait>(
    rt: &R,
    alloc: Global,
    top: &Top<M>,
    parked: &AtomicU64,
    place: &mut Place<M>,
    part: &mut M::Part,
    event: u64,
) -> Turned
    requires table { (place.old.table_id ≡ top.now.table_id) × IsGate top.now.table_id }
    requires idle { (k : Knowledge M.Start M.Entry) × (place.old.me ≡ (sits (k ∷ []), [])) × (M.caller event ≡ k.caller) × (k.ended ≡ false → M.parted k.caller part.old k.start k.seen) }
    ensures same { IsSame place.old place.new }
    ensures done { (k : Knowledge M.Start M.Entry) → place.old.me ≡ (sits (k ∷ []), []) → (new : Knowledge M.Start M.Entry) × (place.new.me ≡ (sits (new ∷ []), [])) × Follows k new × (new.ended ≡ is_refused result) × IfRan result (λ place. HasRun M.event_of k new event place × M.parted new.caller part.new new.start new.seen) × IfRefused result (((new.own ≡ k.own) × (part.new ≡ part.old)) ⊎ ((place : ℕ) × HasRun M.event_of k new event place)) × (k.ended ≡ true → part.new ≡ part.old) }
{
    let mut kept = enter(rt, top, parked, place);
    match kept.run(alloc, part, event) {
        Ok(turned) => {
            finish(top, place, kept);
            turned
        }
        Err(NoMemory) => {
            leave(top, place, kept);
            Turned::NoMemory
        }
    }
}

// Looks in the seat's next turn.
pub(crate) fn look_in_turn<M: Machine, R: Wait>(
    rt: &R,
    top: &Top<M>,
    parked: &AtomicU64,
    place: &mut Place<M>,
    part: &M::Part,
    from: u64,
) -> Look
    requires table { (place.old.table_id ≡ top.now.table_id) × IsGate top.now.table_id }
    requires idle { (k : Knowledge M.Start M.Entry) × (place.old.me ≡ (sits (k ∷ []), [])) × (k.ended ≡ false → M.parted k.caller part.now k.start k.seen) }
    ensures same { IsSame place.old place.new }
    ensures done { (k : Knowledge M.Start M.Entry) → place.old.me ≡ (sits (k ∷ []), []) → (new : Knowledge M.Start M.Entry) × (place.new.me ≡ (sits (new ∷ []), [])) × Follows k new × (new.own ≡ k.own) × (new.ended ≡ true → result ≡ looked.Over) × (new.ended ≡ false → M.answers new.start new.seen part.now from result × M.parted new.caller part.now new.start new.seen) }
{
    let kept = enter(rt, top, parked, place);
    let found = kept.look(part, from);
    leave(top, place, kept);
    found
}
