//! The steps of a turn.
ghost use Rattle.std.specs.Prelude.{◌≡◌, ℕ, ◌+◌, ◌%◌, ◌^◌, ◌≤◌, List, [], ◌∷◌, ◌++◌, Bool, true, false, length, map, Some, None};
ghost use Rattle.turn_gate.specs.declared.view.Knowledge.{Knowledge};
ghost use Rattle.turn_gate.specs.Known.{sees, adds, hears, AllSo};
ghost use Rattle.turn_gate.specs.Places.{IsIdle, Waits, Has, IsSame, IsGate};
ghost use Rattle.turn_gate.specs.Ruled.{sits, holder};
ghost use Rattle.turn_gate.specs.Told.{Good};

use crate::kept::Kept;
use crate::laid::Laid;
use crate::machine::Machine;
use crate::rule::{COUNT, Draw, LookServed, Pass, Place, Raise, SERVING, TICKET, Top};
use std::sync::Wait;
use std::sync::atomic::{AtomicU64, Ordering};
use std::thread;

/// How often a seat looks before it parks.
const LOOKS: u32 = 64;

// Draws a ticket.
fn draw<M: Machine>(top: &Top<M>, place: &mut Place<M>) -> u64
    requires table { (place.old.table_id ≡ top.now.table_id) × IsGate top.now.table_id }
    requires idle { IsIdle place.old × (1 ≤ length place.old.me.0.seats) }
    ensures same { IsSame place.old place.new × (place.new.me.0.seats ≡ place.old.me.0.seats) }
    ensures waits { Waits place.new place.new.me.0.ticket × (place.new.me.0.ticket % 2 ^ 64 ≡ result) }
{
    top.fetch_add::<Draw<M>>(place, TICKET, 1)
}

// Parks while this ticket is served. Who passes the turn on then sees that a seat is parked, or the ticket has changed before.
fn rest<M: Machine, R: Wait>(rt: &R, top: &Top<M>, parked: &AtomicU64, served: u64)
    requires table { IsGate top.now.table_id }
{
    parked.fetch_add(1, Ordering::SeqCst);
    top.park(rt, SERVING, (served % 4294967296) as u32);
    parked.fetch_sub(1, Ordering::SeqCst);
}

// Waits until the ticket is served, and takes the slot.
fn wait_for<M: Machine, R: Wait>(
    rt: &R,
    top: &Top<M>,
    parked: &AtomicU64,
    place: &mut Place<M>,
    ticket: u64,
)
    requires table { (place.old.table_id ≡ top.now.table_id) × IsGate top.now.table_id }
    requires waits { Waits place.old place.old.me.0.ticket × (place.old.me.0.ticket % 2 ^ 64 ≡ ticket) }
    ensures same { IsSame place.old place.new }
    ensures has { (start : M.Start) × (log : List M.Entry) × (kept : Kept M) × Has place.new (Some kept) × Good M.event_of M.start M.story M.sound (Some kept) start log × AllSo (λ x. M.caller (M.event_of x)) start log kept.ended place.old.me.0.seats × (place.new.me.0.seats ≡ map (sees log kept.ended) place.old.me.0.seats) }
{
    let mut looks = 0;
    for _ in rt.forever() {
        let served = top.load::<LookServed<M>>(place, SERVING);
        if served == ticket {
            return;
        }
        if looks < LOOKS {
            looks += 1;
            thread::yield_now();
        } else {
            rest(rt, top, parked, served);
        }
    }
    unreachable!()
}

// The value in the slot that the seat has.
fn take_out<M: Machine>(top: &Top<M>, place: &mut Place<M>) -> Laid<Kept<M>>
    requires table { (place.old.table_id ≡ top.now.table_id) × IsGate top.now.table_id }
    requires has { (kept : Kept M) × Has place.old (Some kept) }
    ensures same { IsSame place.old place.new × (place.new.me.0 ≡ place.old.me.0) }
    ensures out { Has place.new None }
    ensures value { place.old.me.1 ≡ (0, Some result) ∷ [] }
{
    let Some(kept) = top.exchange(place, 0, None) else {
        unreachable!()
    };
    kept
}

// Draws a ticket, waits for it, and takes the value out. The seat has then seen the whole journal.
pub(crate) fn enter<M: Machine, R: Wait>(
    rt: &R,
    top: &Top<M>,
    parked: &AtomicU64,
    place: &mut Place<M>,
) -> Laid<Kept<M>>
    requires table { (place.old.table_id ≡ top.now.table_id) × IsGate top.now.table_id }
    requires idle { IsIdle place.old × (1 ≤ length place.old.me.0.seats) }
    ensures same { IsSame place.old place.new }
    ensures out { Has place.new None }
    ensures value { (start : M.Start) × (log : List M.Entry) × Good M.event_of M.start M.story M.sound (Some result) start log × AllSo (λ x. M.caller (M.event_of x)) start log result.ended place.old.me.0.seats × (place.new.me.0.seats ≡ map (sees log result.ended) place.old.me.0.seats) }
{
    let ticket = draw(top, place);
    wait_for(rt, top, parked, place, ticket);
    take_out(top, place)
}

// Puts the value back.
fn put_back<M: Machine>(top: &Top<M>, place: &mut Place<M>, kept: Laid<Kept<M>>)
    requires table { (place.old.table_id ≡ top.now.table_id) × IsGate top.now.table_id }
    requires out { Has place.old None }
    ensures same { IsSame place.old place.new × (place.new.me.0 ≡ place.old.me.0) }
    ensures has { Has place.new (Some kept) }
{
    let before = top.exchange(place, 0, Some(kept));
    let None = before else { unreachable!() };
}

// Raises the count to that of the journal in the slot, which has one event more than the seat had seen.
fn raise<M: Machine>(top: &Top<M>, place: &mut Place<M>, count: u64)
    requires table { (place.old.table_id ≡ top.now.table_id) × IsGate top.now.table_id }
    requires value { (k : Knowledge M.Start M.Entry) × (e : M.Entry) × (y : Kept M) × Has place.old (Some y) × (place.old.me.0.seats ≡ k ∷ []) × (M.caller (M.event_of e) ≡ k.caller) × (k.ended ≡ false) × Good M.event_of M.start M.story M.sound (Some y) k.start (k.seen ++ e ∷ []) × (count ≡ length y.journal.items) }
    ensures same { IsSame place.old place.new }
    ensures seen { (k : Knowledge M.Start M.Entry) (e : M.Entry) (y : Kept M) → Has place.old (Some y) → place.old.me.0.seats ≡ k ∷ [] → M.caller (M.event_of e) ≡ k.caller → Good M.event_of M.start M.story M.sound (Some y) k.start (k.seen ++ e ∷ []) → place.new.me ≡ (holder place.old.me.0.ticket (adds e k ∷ []), (0, Some y) ∷ []) }
{
    top.store::<Raise<M>>(place, COUNT, count);
}

// Passes the turn on, with the value in the slot.
fn pass<M: Machine>(top: &Top<M>, place: &mut Place<M>)
    requires table { (place.old.table_id ≡ top.now.table_id) × IsGate top.now.table_id }
    requires value { (k : Knowledge M.Start M.Entry) × (y : Kept M) × Has place.old (Some y) × (place.old.me.0.seats ≡ k ∷ []) × Good M.event_of M.start M.story M.sound (Some y) k.start k.seen × (k.ended ≡ true → y.ended ≡ true) }
    ensures same { IsSame place.old place.new }
    ensures idle { (k : Knowledge M.Start M.Entry) (y : Kept M) → Has place.old (Some y) → place.old.me.0.seats ≡ k ∷ [] → place.new.me ≡ (sits (hears y.ended k ∷ []), []) }
{
    top.fetch_add::<Pass<M>>(place, SERVING, 1);
}

// Puts the value back with the journal as it was, and passes the turn on.
pub(crate) fn leave<M: Machine>(top: &Top<M>, place: &mut Place<M>, kept: Laid<Kept<M>>)
    requires table { (place.old.table_id ≡ top.now.table_id) × IsGate top.now.table_id }
    requires out { Has place.old None }
    requires value { (k : Knowledge M.Start M.Entry) × (place.old.me.0.seats ≡ k ∷ []) × Good M.event_of M.start M.story M.sound (Some kept) k.start k.seen × (k.ended ≡ true → kept.ended ≡ true) }
    ensures same { IsSame place.old place.new }
    ensures idle { (k : Knowledge M.Start M.Entry) → place.old.me.0.seats ≡ k ∷ [] → place.new.me ≡ (sits (hears kept.ended k ∷ []), []) }
{
    put_back(top, place, kept);
    pass(top, place);
}

// Puts the value back with one event more in the journal, raises the count and passes the turn on.
pub(crate) fn finish<M: Machine>(top: &Top<M>, place: &mut Place<M>, kept: Laid<Kept<M>>)
    requires table { (place.old.table_id ≡ top.now.table_id) × IsGate top.now.table_id }
    requires out { Has place.old None }
    requires value { (k : Knowledge M.Start M.Entry) × (e : M.Entry) × (place.old.me.0.seats ≡ k ∷ []) × (M.caller (M.event_of e) ≡ k.caller) × (k.ended ≡ false) × Good M.event_of M.start M.story M.sound (Some kept) k.start (k.seen ++ e ∷ []) }
    ensures same { IsSame place.old place.new }
    ensures idle { (k : Knowledge M.Start M.Entry) (e : M.Entry) → place.old.me.0.seats ≡ k ∷ [] → M.caller (M.event_of e) ≡ k.caller → Good M.event_of M.start M.story M.sound (Some kept) k.start (k.seen ++ e ∷ []) → place.new.me ≡ (sits (hears kept.ended (adds e k) ∷ []), []) }
{
    let count = kept.count();
    put_back(top, place, kept);
    raise(top, place, count);
    pass(top, place);
}
