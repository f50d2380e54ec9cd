//! What a page says to the action, in the event that found it valid.
ghost use Rattle.member_marks.specs.Local.{Reaches};

use crate::frames::{begin_anew, begin_draw};
use crate::room::change_room;
use crate::told::RunNext;
use ds_base::{PageId, Place};
use member_marks::Marks;
use member_state::{Run, RunState, Work};
use page_format::Page;
use page_plans::{Action, Look, look};

fn is_split(work: &Work) -> bool {
    matches!(work, Work::Change(Action::Split { .. }))
}

// The entry for whose branch the split was done.
fn entry_behind(run: &Run) -> Option<Action> {
    match run.wanted {
        Work::Change(action) if is_split(&run.work) && !is_split(&run.wanted) => Some(action),
        _ => None,
    }
}

/// What was done is made, or isn't needed any more: behind a split of a branch the entry begins anew.
#[tactic(auto, using(member_marks::specs::Local::on, member_marks::specs::Local::stays))]
pub fn work_done(run: &mut Run, marks: &mut Marks) -> RunNext
    ensures reaches { Reaches marks.old marks.new }
{
    match entry_behind(run) {
        Some(action) => {
            begin_anew(run, &action, marks);
            RunNext::GoesOn
        }
        None => RunNext::Done,
    }
}

// This page is taken next.
fn take_page(run: &mut Run, page: PageId, place: Option<Place>) -> RunNext {
    run.page = page;
    run.place = place;
    run.state = RunState::Frame;
    RunNext::GoesOn
}

#[tactic(auto, using(member_marks::specs::Local::on, member_marks::specs::Local::stays))]
fn follow(run: &mut Run, action: &Action, found: Look, page: &Page, marks: &mut Marks) -> RunNext
    ensures reaches { Reaches marks.old marks.new }
{
    match found {
        Look::Next { page, place } => take_page(run, page, place),
        Look::Draw => {
            begin_draw(run, change_room(action, run.place, page));
            RunNext::GoesOn
        }
        Look::Done => work_done(run, marks),
        Look::Anew(action) => {
            run.wanted = Work::Change(action);
            begin_anew(run, &action, marks);
            RunNext::GoesOn
        }
        Look::Split(action) => {
            begin_anew(run, &action, marks);
            RunNext::GoesOn
        }
        Look::Full { .. } => RunNext::Refused,
        Look::Damaged { at } => RunNext::Damaged { at },
    }
}

/// Goes on by the page taken last. A heap may have `limit` pages of rows.
#[tactic(auto, using(member_marks::specs::Local::on, member_marks::specs::Local::stays))]
pub fn look_told(run: &mut Run, limit: u32, page: &Page, marks: &mut Marks) -> RunNext
    ensures reaches { Reaches marks.old marks.new }
{
    let Work::Change(action) = run.work else {
        return RunNext::GoesOn;
    };
    let nth = (run.frames.count as usize).saturating_sub(1);
    let found = look(&action, limit, nth, run.place, page);
    follow(run, &action, found, page, marks)
}
