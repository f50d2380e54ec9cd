//! Going on: up to the seat's next need.
ghost use Rattle.member_marks.specs.Local.{Reaches};

use crate::locks::try_lock;
use crate::wants::{Wanted, next_want, tell_met};
use ds_base::{NoMemory, PageId};
use member_intents::Event;
use member_marks::{Marks, Owner, Stage};
use member_state::{FrameRequest, MemberState, SeatState, Standing, Work, find_for_reader, submit};
use std::alloc::Global;
use tran_core::Met;

/// More wants than a transaction of a script can have.
const WANTS: u64 = 4_294_967_296;

fn submit_for(state: &mut MemberState, slot: u8, work: &Work) -> Result<(), NoMemory> {
    state.set_standing_state(slot, SeatState::Action, Standing::Idle);
    submit(state, slot, work)
}

fn request_frame(state: &mut MemberState, slot: u8, page: PageId) -> Result<(), NoMemory> {
    state.set_standing_state(slot, SeatState::Frame { page }, Standing::Idle);
    let choice = slot as u64;
    state
        .frame_requests
        .push_back(FrameRequest { choice, page })?;
    Ok(())
}

// A frame for the page at once, where nobody waits for one.
#[tactic(auto, using(member_marks::specs::Local::on, member_marks::specs::Local::stays))]
fn frame_at_once(state: &mut MemberState, page: PageId, marks: &mut Marks) -> Option<u16>
    ensures reaches { Reaches marks.old marks.new }
{
    if state.frame_requests.is_empty() {
        find_for_reader(state, page, marks)
    } else {
        None
    }
}

#[tactic(auto, using(member_marks::specs::Local::on, member_marks::specs::Local::stays))]
fn read_page(
    state: &mut MemberState,
    slot: u8,
    page: PageId,
    marks: &mut Marks,
) -> Result<(), NoMemory>
    ensures reaches { Reaches marks.old marks.new }
{
    match frame_at_once(state, page, marks) {
        Some(frame) => {
            state.set_state(slot, SeatState::Read { frame });
            Ok(())
        }
        None => request_frame(state, slot, page),
    }
}

// The next compensation, or the closing.
fn go_back(
    state: &mut MemberState,
    slot: u8,
    is_undo: bool,
    marks: &Marks,
) -> Result<(), NoMemory> {
    if is_undo {
        return submit_for(state, slot, &Work::Compensate);
    }
    let is_pending = marks.has_undone(&Owner::Slot(slot)) && !marks.is_log_empty();
    state.set_state(
        slot,
        if is_pending {
            SeatState::Force
        } else {
            SeatState::Writes
        },
    );
    Ok(())
}

// Where nothing refused the transaction, it has come to its `abort`, which is met by its refusal.
#[tactic(auto, using(member_marks::specs::Local::on, member_marks::specs::Local::stays))]
fn roll_back(
    state: &mut MemberState,
    slot: u8,
    is_undo: bool,
    marks: &mut Marks,
) -> Result<bool, NoMemory>
    ensures reaches { Reaches marks.old marks.new }
{
    if marks.stage(&Owner::Slot(slot)) == Stage::Forward {
        return Ok(marks.abort(slot));
    }
    go_back(state, slot, is_undo, marks)?;
    Ok(false)
}

// Meets what is wanted, or makes it the seat's state. True where it was met.
#[tactic(auto, using(member_marks::specs::Local::on, member_marks::specs::Local::stays))]
fn meet(
    state: &mut MemberState,
    alloc: Global,
    slot: u8,
    event: &Event,
    wanted: &Wanted,
    marks: &mut Marks,
) -> Result<bool, NoMemory>
    ensures reaches { Reaches marks.old marks.new }
{
    match *wanted {
        Wanted::Lock(name, mode) => return try_lock(state, alloc, slot, event, name, mode, marks),
        Wanted::Undo => return roll_back(state, slot, true, marks),
        Wanted::Ended => return roll_back(state, slot, false, marks),
        Wanted::Page(page) => read_page(state, slot, page, marks)?,
        Wanted::Change(action) => submit_for(state, slot, &Work::Change(action))?,
        Wanted::Commit => state.set_state(slot, SeatState::CommitDraw),
        Wanted::Raise(flag) => state.set_state(slot, SeatState::Raise { flag }),
        Wanted::Await(flag) => state.set_state(slot, SeatState::Flag { flag }),
        Wanted::LoseCache => state.set_state(slot, SeatState::Lose),
    }
    Ok(false)
}

#[tactic(auto, using(member_marks::specs::Local::on, member_marks::specs::Local::stays))]
fn meet_want(
    state: &mut MemberState,
    alloc: Global,
    slot: u8,
    event: &Event,
    marks: &mut Marks,
) -> Result<bool, NoMemory>
    ensures reaches { Reaches marks.old marks.new }
{
    match next_want(state, slot) {
        Some(wanted) => meet(state, alloc, slot, event, &wanted, marks),
        None => Ok(false),
    }
}

/// Goes on up to the seat's next need.
#[tactic(auto, using(member_marks::specs::Local::on, member_marks::specs::Local::stays))]
pub fn go_on(
    state: &mut MemberState,
    alloc: Global,
    slot: u8,
    event: &Event,
    marks: &mut Marks,
) -> Result<(), NoMemory>
    ensures reaches { Reaches marks.old marks.new }
{
    for _ in 0..WANTS {
        if !meet_want(state, alloc, slot, event, marks)? {
            return Ok(());
        }
    }
    Err(NoMemory)
}

/// The agent's want is met, and the seat goes on.
#[tactic(auto, using(member_marks::specs::Local::on, member_marks::specs::Local::stays))]
pub fn action_done(
    state: &mut MemberState,
    alloc: Global,
    slot: u8,
    event: &Event,
    marks: &mut Marks,
) -> Result<(), NoMemory>
    ensures reaches { Reaches marks.old marks.new }
{
    tell_met(state, alloc, slot, &Met::Done, marks)?;
    go_on(state, alloc, slot, event, marks)
}
