//! What an event's outcome makes of a seat.
ghost use Rattle.member_marks.specs.Local.{Reaches};

use crate::going::{action_done, go_on};
use crate::locks::{lock_told, posted, wait_for};
use crate::refusals::{met, refuse};
use crate::wants::tell_met;
use ds_base::NoMemory;
use member_intents::{Event, Outcome};
use member_marks::Marks;
use member_state::{MemberState, Posted, Seat, SeatState, Standing, purge_after, unpin_for_reader};
use page_format::Page;
use std::alloc::Global;
use tran_core::{Agent, Met};

// The number in the script of the transaction that is begun next.
fn next_number(state: &MemberState) -> Option<u32> {
    match state.part.last() {
        Some(tran) => Some(tran.number),
        None => None,
    }
}

// Puts the next transaction of the part into the seat.
fn seat_next(state: &mut MemberState, alloc: Global, slot: u8) -> Result<(), NoMemory> {
    let Some(tran) = state.part.pop() else {
        return Ok(());
    };
    let waits = tran.wait;
    let agent = Agent::new(alloc, tran)?;
    if let Some(seat) = state.seats.get_mut(slot as usize) {
        *seat = Seat::new(agent, waits);
    }
    if state.part.is_empty() {
        state.stand_free_seats();
    }
    Ok(())
}

// The seat takes the next transaction of the part.
#[tactic(auto, using(member_marks::specs::Local::on, member_marks::specs::Local::stays))]
fn take_tran(
    state: &mut MemberState,
    alloc: Global,
    slot: u8,
    event: &Event,
    marks: &mut Marks,
) -> Result<(), NoMemory>
    ensures reaches { Reaches marks.old marks.new }
{
    let Some(number) = next_number(state) else {
        return Ok(());
    };
    if !marks.begin(slot, number)? {
        return Ok(());
    }
    seat_next(state, alloc, slot)?;
    go_on(state, alloc, slot, event, marks)
}

// A wait has ended.
#[tactic(auto, using(member_marks::specs::Local::on, member_marks::specs::Local::stays))]
fn wakes(
    state: &mut MemberState,
    alloc: Global,
    slot: u8,
    event: &Event,
    marks: &mut Marks,
) -> Result<(), NoMemory>
    ensures reaches { Reaches marks.old marks.new }
{
    state.unpark(slot as u64);
    match state.seat_state(slot) {
        SeatState::Asleep => go_on(state, alloc, slot, event, marks),
        _ => Ok(()),
    }
}

// The page was valid in this event, in which it is used.
#[tactic(auto, using(member_marks::specs::Local::on, member_marks::specs::Local::stays))]
fn page_met(
    state: &mut MemberState,
    alloc: Global,
    slot: u8,
    event: &Event,
    frame: u16,
    page: &Page,
    marks: &mut Marks,
) -> Result<(), NoMemory>
    ensures reaches { Reaches marks.old marks.new }
{
    unpin_for_reader(state, frame, marks);
    tell_met(state, alloc, slot, &Met::Page(page), marks)?;
    go_on(state, alloc, slot, event, marks)
}

#[tactic(auto, using(member_marks::specs::Local::on, member_marks::specs::Local::stays))]
fn negotiation_told(
    state: &mut MemberState,
    alloc: Global,
    slot: u8,
    event: &Event,
    outcome: &Outcome<'_>,
    marks: &mut Marks,
) -> Result<(), NoMemory>
    ensures reaches { Reaches marks.old marks.new }
{
    match lock_told(state, alloc, slot, event, outcome, marks)? {
        Some(began) => go_on(state, alloc, slot, &began, marks),
        None => Ok(()),
    }
}

fn clear_posted(state: &mut MemberState, slot: u8) {
    if let Some(seat) = state.seats.get_mut(slot as usize) {
        seat.posted = Posted::new();
    }
}

#[tactic(auto, using(member_marks::specs::Local::on, member_marks::specs::Local::stays))]
fn flag_told(
    state: &mut MemberState,
    alloc: Global,
    slot: u8,
    event: &Event,
    flag: u8,
    is_raised: bool,
    marks: &mut Marks,
) -> Result<(), NoMemory>
    ensures reaches { Reaches marks.old marks.new }
{
    if is_raised {
        if met(state, alloc, slot, marks)? {
            return go_on(state, alloc, slot, event, marks);
        }
    } else if let Some(raiser) = state.raiser(flag) {
        wait_for(state, slot, event, raiser, flag);
    }
    Ok(())
}

// The number of the Commit record is drawn.
fn commit_drawn(state: &mut MemberState, slot: u8) {
    state.points.count_drawn();
    state.set_state(slot, SeatState::Force);
}

// Closings: a page was written, a lock was given up, a name was purged, or the transaction has ended.
fn closing_told(state: &mut MemberState, slot: u8, outcome: &Outcome<'_>, marks: &Marks) {
    match outcome {
        Outcome::Released { name } => {
            let purge = purge_after(marks, name);
            state.set_state(slot, SeatState::Release { purge });
        }
        Outcome::Purged => state.set_state(slot, SeatState::Release { purge: None }),
        Outcome::Ended => state.free_seat(slot),
        _ => {}
    }
}

// What a seat in this state makes of an answer.
#[tactic(auto, using(member_marks::specs::Local::on, member_marks::specs::Local::stays))]
fn answered(
    state: &mut MemberState,
    alloc: Global,
    slot: u8,
    event: &Event,
    outcome: &Outcome<'_>,
    marks: &mut Marks,
) -> Result<(), NoMemory>
    ensures reaches { Reaches marks.old marks.new }
{
    match (state.seat_state(slot), outcome) {
        (SeatState::Free, _) => take_tran(state, alloc, slot, event, marks),
        (SeatState::Lock { .. }, _) => negotiation_told(state, alloc, slot, event, outcome, marks),
        (SeatState::Read { frame }, Outcome::Valid { page }) => {
            page_met(state, alloc, slot, event, frame, page, marks)
        }
        (SeatState::Post { holder, bell, .. }, _) => {
            posted(state, slot, holder, bell);
            Ok(())
        }
        (SeatState::Unwait, _) => {
            clear_posted(state, slot);
            go_on(state, alloc, slot, event, marks)
        }
        (SeatState::Raise { .. } | SeatState::Lose, _) => {
            action_done(state, alloc, slot, event, marks)
        }
        (SeatState::Flag { flag }, Outcome::Raised(is_raised)) => {
            flag_told(state, alloc, slot, event, flag, *is_raised, marks)
        }
        (SeatState::CommitDraw, Outcome::Drawn) => {
            commit_drawn(state, slot);
            Ok(())
        }
        (SeatState::CommitDraw, Outcome::Refused) => refuse(state, alloc, slot, event, marks),
        (SeatState::Writes | SeatState::Release { .. } | SeatState::Leave, _) => {
            closing_told(state, slot, outcome, marks);
            Ok(())
        }
        _ => Ok(()),
    }
}

/// What the outcome of the slot's event makes of its seat.
#[tactic(auto, using(member_marks::specs::Local::on, member_marks::specs::Local::stays))]
pub fn take_for_seat(
    state: &mut MemberState,
    alloc: Global,
    slot: u8,
    event: &Event,
    outcome: &Outcome<'_>,
    marks: &mut Marks,
) -> Result<(), NoMemory>
    ensures reaches { Reaches marks.old marks.new }
{
    let choice = slot as u64;
    match outcome {
        Outcome::Lost => state.park(choice, event.bell, false),
        Outcome::CacheFull => state.park(choice, event.bell, true),
        Outcome::Forced => state.forced(),
        _ if state.standing(choice) == Standing::Ready => {
            return answered(state, alloc, slot, event, outcome, marks);
        }
        _ => return wakes(state, alloc, slot, event, marks),
    }
    Ok(())
}
