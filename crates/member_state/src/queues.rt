//! Page actions that wait for choice 18.

use crate::run::{Run, Work};
use crate::state::MemberState;
use ds_base::NoMemory;
use member_marks::{Marks, Owner};
use page_plans::first_page;

fn run_of(owner: &Owner, work: &Work, marks: &Marks) -> Option<Run> {
    let page = match work {
        Work::Change(action) => first_page(action),
        Work::Compensate => marks.undo_page(owner)?,
    };
    Some(Run::new(owner, work, page))
}

/// Hands what is to be done for the slot's transaction to choice 18.
pub fn submit(state: &mut MemberState, slot: u8, work: &Work) -> Result<(), NoMemory> {
    state.runs.push_back(slot)?;
    if let Some(seat) = state.seats.get_mut(slot as usize) {
        seat.work = *work;
    }
    Ok(())
}

/// Choice 18, which has nothing in hand, takes the newest change of the owner's transaction back, before all that waits.
pub fn submit_first(state: &mut MemberState, owner: &Owner, marks: &Marks) {
    state.run = run_of(owner, &Work::Compensate, marks);
}

/// The page action that waits longest, which waits no longer. There is none where nothing stands to be taken back.
pub fn next_run(state: &mut MemberState, marks: &Marks) -> Option<Run> {
    let slot = state.runs.pop_front()?;
    let seat = state.seats.get(slot as usize)?;
    run_of(&Owner::Slot(slot), &seat.work, marks)
}
