//! Locks: the trial at home, the end of a negotiation, and waits.
ghost use Rattle.member_marks.specs.Local.{Reaches};

use crate::refusals::{met, refuse_need};
use ds_base::{NoMemory, TranId};
use lock_names::{Mode, Name};
use member_intents::{Event, Outcome};
use member_marks::{Marks, Owner, Trial};
use member_state::{MemberState, SeatState, Standing};
use plock_negotiate::{Negotiation, Progress};
use std::alloc::Global;

/// It waits for the bell, and begins anew.
pub fn fall_asleep(state: &mut MemberState, slot: u8, bell: u64) {
    state.set_standing_state(slot, SeatState::Asleep, Standing::Until(bell));
}

fn has_posted(state: &MemberState, slot: u8, holder: &TranId) -> bool {
    match state.seats.get(slot as usize) {
        Some(seat) => seat.posted.contains(holder),
        None => false,
    }
}

/// The pair with the holder is posted, unless it stands already, and the seat waits for the bell.
pub fn wait_for(state: &mut MemberState, slot: u8, event: &Event, holder: TranId, flag: u8) {
    let bell = event.bell;
    state.waiting.insert(slot as u64);
    if has_posted(state, slot, &holder) {
        fall_asleep(state, slot, bell);
    } else {
        state.set_state(slot, SeatState::Post { holder, flag, bell });
    }
}

/// The pair stands.
pub fn posted(state: &mut MemberState, slot: u8, holder: TranId, bell: u64) {
    if let Some(seat) = state.seats.get_mut(slot as usize) {
        seat.posted.insert(holder);
    }
    fall_asleep(state, slot, bell);
}

fn waits(state: &MemberState, slot: u8) -> bool {
    match state.seats.get(slot as usize) {
        Some(seat) => seat.waits,
        None => false,
    }
}

// Another transaction has the lock: one that doesn't wait is refused. True where the seat can go on at once.
#[tactic(auto, using(member_marks::specs::Local::on, member_marks::specs::Local::stays))]
fn conflict(
    state: &mut MemberState,
    alloc: Global,
    slot: u8,
    event: &Event,
    by: TranId,
    marks: &mut Marks,
) -> Result<bool, NoMemory>
    ensures reaches { Reaches marks.old marks.new }
{
    if !waits(state, slot) {
        return refuse_need(state, alloc, slot, marks);
    }
    wait_for(state, slot, event, by, 0);
    Ok(false)
}

fn negotiate(state: &mut MemberState, slot: u8, name: Name, mode: Mode) {
    let negotiation = Negotiation::new(&Owner::Slot(slot), name, mode);
    state.set_state(slot, SeatState::Lock { negotiation });
}

/// The trial at home. True where the lock is held now, or was refused and the seat can go on at once.
#[tactic(auto, using(member_marks::specs::Local::on, member_marks::specs::Local::stays))]
pub fn try_lock(
    state: &mut MemberState,
    alloc: Global,
    slot: u8,
    event: &Event,
    name: Name,
    mode: Mode,
    marks: &mut Marks,
) -> Result<bool, NoMemory>
    ensures reaches { Reaches marks.old marks.new }
{
    match marks.claim(slot, &name, mode) {
        Trial::Have => met(state, alloc, slot, marks),
        Trial::ToObtain(joint) => {
            negotiate(state, slot, name, joint);
            Ok(false)
        }
        Trial::Conflict(by) => conflict(state, alloc, slot, event, by, marks),
        Trial::Postponed(_) | Trial::NoMemory => refuse_need(state, alloc, slot, marks),
        Trial::NotForward => Ok(false),
    }
}

// How far the seat's negotiation has come, and its bell.
fn negotiated(
    state: &mut MemberState,
    slot: u8,
    event: &Event,
    outcome: &Outcome<'_>,
) -> (Progress, u64) {
    match state.seats.get_mut(slot as usize) {
        Some(seat) => match &mut seat.state {
            SeatState::Lock { negotiation } => {
                let progress = negotiation.take(outcome, event);
                (progress, negotiation.bell())
            }
            _ => (Progress::GoesOn, event.bell),
        },
        None => (Progress::GoesOn, event.bell),
    }
}

/// The negotiation goes on by what the event came to. True where it has ended and the seat can go on at once, from an event
/// with this bell.
#[tactic(auto, using(member_marks::specs::Local::on, member_marks::specs::Local::stays))]
pub fn lock_told(
    state: &mut MemberState,
    alloc: Global,
    slot: u8,
    event: &Event,
    outcome: &Outcome<'_>,
    marks: &mut Marks,
) -> Result<Option<Event>, NoMemory>
    ensures reaches { Reaches marks.old marks.new }
{
    let (progress, bell) = negotiated(state, slot, event, outcome);
    let began = Event {
        place: event.place,
        bell,
    };
    let goes_on = match progress {
        Progress::GoesOn => false,
        Progress::Granted => met(state, alloc, slot, marks)?,
        Progress::Conflict { by } => conflict(state, alloc, slot, &began, by, marks)?,
        Progress::Refused => refuse_need(state, alloc, slot, marks)?,
    };
    Ok(if goes_on { Some(began) } else { None })
}
