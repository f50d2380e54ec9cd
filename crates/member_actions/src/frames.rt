//! The frames and the lock of the page that is taken.
ghost use Rattle.member_marks.specs.Local.{Reaches};

use crate::room::{COMPENSATION, ROW_CHANGE};
use lock_names::{Mode, Name};
use member_marks::Marks;
use member_state::{Run, RunState, Work};
use page_plans::{Action, first_page};
use plock_negotiate::Negotiation;

/// The frame of the page that was taken last.
pub fn last_frame(run: &Run) -> Option<u16> {
    let last = run.frames.count.checked_sub(1)?;
    match run.frames.at.get(last as usize) {
        Some(at) => Some(*at),
        None => None,
    }
}

/// The frame of the page that was taken as the `nth`, from 0.
pub fn nth_frame(run: &Run, nth: u8) -> Option<u16> {
    if nth >= run.frames.count {
        return None;
    }
    match run.frames.at.get(nth as usize) {
        Some(at) => Some(*at),
        None => None,
    }
}

/// Whether the action has pinned this frame.
pub fn has_frame(run: &Run, frame: u16) -> bool {
    nth_frame(run, 0) == Some(frame)
        || nth_frame(run, 1) == Some(frame)
        || nth_frame(run, 2) == Some(frame)
}

fn add_frame(run: &mut Run, frame: u16) {
    if let Some(place) = run.frames.at.get_mut(run.frames.count as usize) {
        *place = frame;
        run.frames.count = run.frames.count.saturating_add(1);
    }
}

/// The log buffer has to have this room, and then the number is drawn.
pub fn begin_draw(run: &mut Run, room: u32) {
    run.room = room;
    run.state = RunState::Draw;
}

/// The lock of the page is held.
pub fn lock_held(run: &mut Run) {
    match run.work {
        Work::Compensate => begin_draw(run, COMPENSATION),
        Work::Change(Action::RowChange { .. }) => begin_draw(run, ROW_CHANGE),
        Work::Change(_) => run.state = RunState::Test,
    }
}

/// The page's lock is negotiated from the beginning.
pub fn negotiate(run: &mut Run) {
    let negotiation = Negotiation::new(&run.owner, Name::Page(run.page), Mode::X);
    run.state = RunState::Lock { negotiation };
}

/// The page has this frame, which is pinned.
pub fn frame_given(run: &mut Run, frame: u16, marks: &Marks) {
    add_frame(run, frame);
    if marks.has_page(run.page) {
        lock_held(run);
    } else {
        negotiate(run);
    }
}

#[tactic(auto, using(member_marks::specs::Local::on, member_marks::specs::Local::stays))]
fn unpin_nth(run: &Run, nth: u8, marks: &mut Marks)
    ensures reaches { Reaches marks.old marks.new }
{
    if let Some(frame) = nth_frame(run, nth) {
        marks.unpin(frame);
    }
}

/// The action has no frame any more.
#[tactic(auto, using(member_marks::specs::Local::on, member_marks::specs::Local::stays))]
pub fn unpin_all(run: &mut Run, marks: &mut Marks)
    ensures reaches { Reaches marks.old marks.new }
{
    unpin_nth(run, 0, marks);
    unpin_nth(run, 1, marks);
    unpin_nth(run, 2, marks);
    run.frames.count = 0;
}

/// Another change is done now, from its first page on.
#[tactic(auto, using(member_marks::specs::Local::on, member_marks::specs::Local::stays))]
pub fn begin_anew(run: &mut Run, action: &Action, marks: &mut Marks)
    ensures reaches { Reaches marks.old marks.new }
{
    unpin_all(run, marks);
    run.work = Work::Change(*action);
    run.page = first_page(action);
    run.state = RunState::Frame;
}
