//! Frames: who gets one, how it is filled and tested, and how its page is written.
//!
//! A reader pins one frame from its placement to its use, and no second one. What a frame needs next follows from its marks,
//! whoever asks: it is registered, then filled, then tested.
ghost use Rattle.member_marks.specs.Local.{Reaches};

use crate::state::MemberState;
use ds_base::{PageId, TableId};
use member_intents::Intent;
use member_marks::Marks;
use member_resources::Resources;

/// What the frame needs before it can be tested or drawn for.
pub fn fill_intent(marks: &Marks, frame: u16) -> Option<Intent> {
    let marked = marks.frame(frame);
    if !marked.registered {
        Some(Intent::Read { frame })
    } else if !marked.filled {
        Some(Intent::ReadPage { frame })
    } else {
        None
    }
}

/// What the frame needs before its page is looked at. A slot is named where the page may refuse what is done for it: where it
/// is the header of the heap of `gives`, in which a place is to be given.
pub fn test_intent(marks: &Marks, frame: u16, slot: u8, gives: Option<TableId>) -> Intent {
    match fill_intent(marks, frame) {
        Some(intent) => intent,
        None => Intent::Test { frame, slot, gives },
    }
}

/// The frame's page is written to the cache, once its log records are stable.
pub fn write_intent(resources: &Resources, frame: u16) -> Intent {
    if resources.is_stable(frame) {
        Intent::WritePage { frame }
    } else {
        Intent::Append
    }
}

// The frame of the page, which is placed where a frame is free.
#[tactic(auto, using(member_marks::specs::Local::on, member_marks::specs::Local::stays))]
fn frame_for(page: PageId, marks: &mut Marks) -> Option<u16>
    ensures reaches { Reaches marks.old marks.new }
{
    match marks.find(page) {
        Some(frame) => Some(frame),
        None => marks.place(page),
    }
}

/// A frame for a reader of the page, pinned, where one can be had at once.
#[tactic(auto, using(member_marks::specs::Local::on, member_marks::specs::Local::stays))]
pub fn find_for_reader(state: &mut MemberState, page: PageId, marks: &mut Marks) -> Option<u16>
    ensures reaches { Reaches marks.old marks.new }
{
    if state.reader_pins >= state.reader_limit {
        return None;
    }
    let frame = frame_for(page, marks)?;
    marks.pin(frame);
    state.reader_pins = state.reader_pins.saturating_add(1);
    Some(frame)
}

/// The reader has used its frame.
#[tactic(auto, using(member_marks::specs::Local::on, member_marks::specs::Local::stays))]
pub fn unpin_for_reader(state: &mut MemberState, frame: u16, marks: &mut Marks)
    ensures reaches { Reaches marks.old marks.new }
{
    marks.unpin(frame);
    state.reader_pins = state.reader_pins.saturating_sub(1);
}
