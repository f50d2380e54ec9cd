//! Refusals, and what ends a need.
ghost use Rattle.member_marks.specs.Local.{Reaches};

use crate::going::go_on;
use crate::wants::{tell_met, tell_refused};
use ds_base::NoMemory;
use member_intents::Event;
use member_marks::{Marks, Owner, Stage};
use member_state::{MemberState, SeatState};
use std::alloc::Global;
use tran_core::Met;

// The need has ended; true where no pair is to be dropped before the next step.
fn ends_need(state: &mut MemberState, slot: u8) -> bool {
    state.waiting.remove(slot as u64);
    let is_alone = match state.seats.get(slot as usize) {
        Some(seat) => seat.posted.is_empty(),
        None => true,
    };
    if !is_alone {
        state.set_state(slot, SeatState::Unwait);
    }
    is_alone
}

/// The need is met. True where the seat can go on at once.
#[tactic(auto, using(member_marks::specs::Local::on, member_marks::specs::Local::stays))]
pub fn met(
    state: &mut MemberState,
    alloc: Global,
    slot: u8,
    marks: &mut Marks,
) -> Result<bool, NoMemory>
    ensures reaches { Reaches marks.old marks.new }
{
    tell_met(state, alloc, slot, &Met::Done, marks)?;
    Ok(ends_need(state, slot))
}

/// The refusal that stands in this event is the transaction's fate. True where the seat can go on at once.
#[tactic(auto, using(member_marks::specs::Local::on, member_marks::specs::Local::stays))]
pub fn refuse_need(
    state: &mut MemberState,
    alloc: Global,
    slot: u8,
    marks: &mut Marks,
) -> Result<bool, NoMemory>
    ensures reaches { Reaches marks.old marks.new }
{
    if !marks.refuse(slot) {
        return Ok(false);
    }
    tell_refused(state, alloc, slot)?;
    Ok(ends_need(state, slot))
}

// The rollback needs a page that a failed member retains: it waits apart, with its claims, and the seat is left. It goes on
// where the marks don't allow that.
#[tactic(auto, using(member_marks::specs::Local::on, member_marks::specs::Local::stays))]
fn postpone(
    state: &mut MemberState,
    alloc: Global,
    slot: u8,
    event: &Event,
    marks: &mut Marks,
) -> Result<(), NoMemory>
    ensures reaches { Reaches marks.old marks.new }
{
    match marks.postpone(slot) {
        Some(id) => {
            state.add_rollback(id, event.bell)?;
            state.set_state(slot, SeatState::Leave);
            Ok(())
        }
        None => go_on(state, alloc, slot, event, marks),
    }
}

#[tactic(auto, using(member_marks::specs::Local::on, member_marks::specs::Local::stays))]
fn refuse_forward(
    state: &mut MemberState,
    alloc: Global,
    slot: u8,
    event: &Event,
    marks: &mut Marks,
) -> Result<(), NoMemory>
    ensures reaches { Reaches marks.old marks.new }
{
    if refuse_need(state, alloc, slot, marks)? {
        go_on(state, alloc, slot, event, marks)?;
    }
    Ok(())
}

/// The refusal that stands in this event is the fate of the slot's transaction, which is rolled back. One that is being
/// rolled back is postponed.
#[tactic(auto, using(member_marks::specs::Local::on, member_marks::specs::Local::stays))]
pub fn refuse(
    state: &mut MemberState,
    alloc: Global,
    slot: u8,
    event: &Event,
    marks: &mut Marks,
) -> Result<(), NoMemory>
    ensures reaches { Reaches marks.old marks.new }
{
    match marks.stage(&Owner::Slot(slot)) {
        Stage::Undoing => postpone(state, alloc, slot, event, marks),
        _ => refuse_forward(state, alloc, slot, event, marks),
    }
}
