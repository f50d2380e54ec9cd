//! What a page action wants of its next event.

use crate::frames::{last_frame, nth_frame};
use ds_base::TableId;
use member_intents::Intent;
use member_marks::{Marks, Owner};
use member_state::{Resources, Run, RunState, Work, fill_intent, test_intent};
use page_plans::Action;

// The table in which the action is to be given a slot, where the page in hand is the header of its heap.
fn gives(run: &Run) -> Option<TableId> {
    match run.work {
        Work::Change(Action::GiveSlot { table, .. }) if run.frames.count == 1 => Some(table),
        _ => None,
    }
}

// Where the heap has no slot left, that refuses the owner's transaction.
fn tests(run: &Run, frame: u16, marks: &Marks) -> Intent {
    match (&run.owner, gives(run)) {
        (Owner::Slot(slot), Some(table)) => test_intent(marks, frame, *slot, Some(table)),
        _ => test_intent(marks, frame, 0, None),
    }
}

fn looks_at(run: &Run, marks: &Marks) -> Intent {
    match last_frame(run) {
        Some(frame) => tests(run, frame, marks),
        None => Intent::Step,
    }
}

fn fills_nth(run: &Run, nth: u8, marks: &Marks) -> Option<Intent> {
    fill_intent(marks, nth_frame(run, nth)?)
}

// What the first frame that isn't registered or filled needs.
fn fills(run: &Run, marks: &Marks) -> Option<Intent> {
    for nth in 0..3u8 {
        if let Some(intent) = fills_nth(run, nth, marks) {
            return Some(intent);
        }
    }
    None
}

fn takes_back(run: &Run) -> Intent {
    match last_frame(run) {
        Some(frame) => Intent::Undo {
            owner: run.owner,
            frame,
        },
        None => Intent::Step,
    }
}

// A rollback changes nothing but what it takes back.
fn changes(run: &Run) -> Intent {
    match (&run.owner, run.work) {
        (Owner::Slot(slot), Work::Change(action)) => Intent::Change {
            slot: *slot,
            action,
            frames: run.frames,
        },
        _ => takes_back(run),
    }
}

fn draws(run: &Run, marks: &Marks) -> Intent {
    if marks.log_room() < run.room || marks.must_append() {
        return Intent::Append;
    }
    match fills(run, marks) {
        Some(intent) => intent,
        None => changes(run),
    }
}

/// What the action wants. Nothing while it waits for a frame.
pub fn run_intent(run: &Run, resources: &Resources) -> Intent {
    match &run.state {
        RunState::Frame => Intent::Step,
        RunState::Lock { negotiation } => negotiation.intent(),
        RunState::Test => looks_at(run, resources.marks()),
        RunState::Draw => draws(run, resources.marks()),
    }
}
