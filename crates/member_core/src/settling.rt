//! What is in hand next. This is computed at the end of each event of the member.
ghost use Rattle.member_marks.specs.Local.{Reaches};

use crate::grants::{begin_run, first_request, give_reader_frames, page_wanted};
use ds_base::PageId;
use member_actions::has_frame;
use member_marks::Marks;
use member_retry::is_locking;
use member_state::{MemberState, PAGES, RETRY, Service, Standing};

// A frame that was pinned meanwhile isn't reused.
fn check_service(state: &mut MemberState, marks: &Marks) {
    if let Some(Service::Reuse { frame, .. }) = state.service {
        if marks.frame(frame).pins > 0 {
            state.service = None;
        }
    }
}

fn is_pinned_by_run(state: &MemberState, page: PageId, marks: &Marks) -> bool {
    match (&state.run, marks.find(page)) {
        (Some(run), Some(frame)) => has_frame(run, frame),
        _ => false,
    }
}

// The first page to be yielded that the action hasn't pinned.
fn next_yield(state: &MemberState, marks: &Marks) -> Option<PageId> {
    for page in &state.yields {
        if !is_pinned_by_run(state, *page, marks) {
            return Some(*page);
        }
    }
    None
}

fn is_wanted_by_reader(state: &MemberState, marks: &Marks) -> bool {
    match first_request(state) {
        Some(request) if state.reader_pins < state.reader_limit => {
            marks.find(request.page).is_none()
        }
        _ => false,
    }
}

// Whether a page that isn't placed waits for a free frame.
fn wants_frame(state: &MemberState, marks: &Marks) -> bool {
    match page_wanted(state) {
        Some(page) if marks.find(page).is_none() => true,
        _ => is_wanted_by_reader(state, marks),
    }
}

fn next_reuse(marks: &Marks) -> Option<Service> {
    let frame = marks.victim()?;
    let page = marks.frame(frame).page?;
    Some(Service::Reuse { page, frame })
}

// A yield of a page that the action hasn't pinned, and else a frame's reuse.
fn next_service(state: &MemberState, marks: &Marks) -> Option<Service> {
    if let Some(page) = next_yield(state, marks) {
        return Some(Service::Yield { page });
    }
    if wants_frame(state, marks) && !marks.has_free() {
        next_reuse(marks)
    } else {
        None
    }
}

fn pick_service(state: &mut MemberState, marks: &Marks) {
    if state.service.is_none() {
        state.service = next_service(state, marks);
    }
}

fn is_run_ready(state: &MemberState) -> bool {
    match &state.run {
        Some(run) => !run.needs_frame(),
        None => false,
    }
}

// A wait for the bell stays. Else choice 18 is ready with a service, or with an action that doesn't wait for a frame.
fn stand_pages(state: &mut MemberState) {
    if let Standing::Until(_) = state.standing(PAGES) {
        return;
    }
    let standing = if state.service.is_some() || is_run_ready(state) {
        Standing::Ready
    } else {
        Standing::Idle
    };
    state.stand(PAGES, standing);
}

// Choice 22 asks for a page's lock while choice 18 has no action in hand. With no rollback in hand it waits for the next try.
fn stand_retry(state: &mut MemberState) {
    if is_locking(state) {
        let standing = match state.run {
            Some(_) => Standing::Idle,
            None => Standing::Ready,
        };
        state.stand(RETRY, standing);
    }
    state.stand_retry();
}

/// Begins an action or a service, gives frames, and says how choices 18 and 22 stand.
#[tactic(auto, using(member_marks::specs::Local::on, member_marks::specs::Local::stays))]
pub fn settle(state: &mut MemberState, marks: &mut Marks)
    ensures reaches { Reaches marks.old marks.new }
{
    begin_run(state, marks);
    give_reader_frames(state, marks);
    begin_run(state, marks);
    check_service(state, marks);
    pick_service(state, marks);
    stand_pages(state);
    stand_retry(state);
}
