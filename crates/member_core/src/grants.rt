//! Frames for the page action and for readers.
ghost use Rattle.member_marks.specs.Local.{Reaches};

use ds_base::PageId;
use member_actions::frame_given;
use member_marks::Marks;
use member_retry::{frame_given as give_to_retry, is_locking, submit_where_locked};
use member_state::{FrameRequest, MemberState, RETRY, SeatState, find_for_reader, next_run};

fn is_served(state: &MemberState, page: PageId) -> bool {
    match state.service {
        Some(service) => service.page() == page,
        None => false,
    }
}

/// The page for which the action in hand needs a frame.
pub fn page_wanted(state: &MemberState) -> Option<PageId> {
    match &state.run {
        Some(run) if run.needs_frame() => Some(run.page),
        _ => None,
    }
}

// The frame of the page, where no service is at it, or a free one, in which it is placed.
#[tactic(auto, using(member_marks::specs::Local::on, member_marks::specs::Local::stays))]
fn frame_for(state: &MemberState, page: PageId, marks: &mut Marks) -> Option<u16>
    ensures reaches { Reaches marks.old marks.new }
{
    match marks.find(page) {
        Some(_) if is_served(state, page) => None,
        Some(frame) => Some(frame),
        None => marks.place(page),
    }
}

fn give_to_run(state: &mut MemberState, frame: u16, marks: &Marks) {
    if let Some(run) = &mut state.run {
        frame_given(run, frame, marks);
    }
}

// The action in hand gets the frame that it needs, where one can be had.
#[tactic(auto, using(member_marks::specs::Local::on, member_marks::specs::Local::stays))]
fn give_run_frame(state: &mut MemberState, page: PageId, marks: &mut Marks)
    ensures reaches { Reaches marks.old marks.new }
{
    if let Some(frame) = frame_for(state, page, marks) {
        marks.pin(frame);
        give_to_run(state, frame, marks);
    }
}

// The change that the rollback in hand takes back goes first. While that asks for its page's lock, no other action begins.
fn take_next(state: &mut MemberState, marks: &Marks) {
    if state.run.is_none() {
        submit_where_locked(state, marks);
    }
    if state.run.is_none() && !is_locking(state) {
        state.run = next_run(state, marks);
    }
}

/// Begins the next action, and gives the action in hand its frame.
#[tactic(auto, using(member_marks::specs::Local::on, member_marks::specs::Local::stays))]
pub fn begin_run(state: &mut MemberState, marks: &mut Marks)
    ensures reaches { Reaches marks.old marks.new }
{
    take_next(state, marks);
    if let Some(page) = page_wanted(state) {
        give_run_frame(state, page, marks);
    }
}

// The seat reads in this frame.
fn give_to_seat(state: &mut MemberState, choice: u64, frame: u16) {
    if let Ok(slot) = u8::try_from(choice) {
        state.set_state(slot, SeatState::Read { frame });
    }
}

fn give_to_reader(state: &mut MemberState, request: FrameRequest, frame: u16) {
    match request.choice {
        RETRY => give_to_retry(state, request.page, frame),
        choice => give_to_seat(state, choice, frame),
    }
}

// The reader that waits longest gets a frame, where one can be had.
#[tactic(auto, using(member_marks::specs::Local::on, member_marks::specs::Local::stays))]
fn give_reader_frame(state: &mut MemberState, marks: &mut Marks) -> bool
    ensures reaches { Reaches marks.old marks.new }
{
    let Some(request) = first_request(state) else {
        return false;
    };
    let Some(frame) = find_for_reader(state, request.page, marks) else {
        return false;
    };
    let _first = state.frame_requests.pop_front();
    give_to_reader(state, request, frame);
    true
}

/// The request of the reader that waits longest.
pub fn first_request(state: &MemberState) -> Option<FrameRequest> {
    match state.frame_requests.front() {
        Some(request) => Some(*request),
        None => None,
    }
}

/// Frames for the readers in their order.
#[tactic(auto, using(member_marks::specs::Local::on, member_marks::specs::Local::stays))]
pub fn give_reader_frames(state: &mut MemberState, marks: &mut Marks)
    ensures reaches { Reaches marks.old marks.new }
{
    for _ in 0..state.frame_requests.len() {
        if !give_reader_frame(state, marks) {
            return;
        }
    }
}
