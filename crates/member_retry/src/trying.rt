//! One try of a rollback: its frame, its page's lock, and what choice 18 hands back.
ghost use Rattle.member_marks.specs.Local.{Reaches};

use ds_base::{NoMemory, PageId};
use lock_names::{Mode, Name};
use member_intents::Event;
use member_marks::{Marks, Owner};
use member_state::{
    FrameRequest, MemberState, RETRY, RetryState, Standing, find_for_reader, submit_first,
    unpin_for_reader,
};
use plock_negotiate::Negotiation;

fn set_idle(state: &mut MemberState, retry: RetryState) {
    state.retry = retry;
    state.stand(RETRY, Standing::Idle);
}

fn set_ready(state: &mut MemberState, retry: RetryState) {
    state.retry = retry;
    state.stand(RETRY, Standing::Ready);
}

fn request_frame(state: &mut MemberState, page: PageId) -> Result<(), NoMemory> {
    set_idle(state, RetryState::Frame { page });
    state.frame_requests.push_back(FrameRequest {
        choice: RETRY,
        page,
    })?;
    Ok(())
}

/// The page has this frame, which is pinned. Its lock is asked for once choice 18 has no action in hand.
pub fn frame_given(state: &mut MemberState, page: PageId, frame: u16) {
    let Some(owner) = state.retried() else {
        return;
    };
    let negotiation = Negotiation::new(&owner, Name::Page(page), Mode::X);
    set_idle(
        state,
        RetryState::Lock {
            page,
            frame,
            negotiation,
        },
    );
}

// A frame for the page at once, where nobody waits for one.
#[tactic(auto, using(member_marks::specs::Local::on, member_marks::specs::Local::stays))]
fn frame_at_once(state: &mut MemberState, page: PageId, marks: &mut Marks) -> Option<u16>
    ensures reaches { Reaches marks.old marks.new }
{
    if state.frame_requests.is_empty() {
        find_for_reader(state, page, marks)
    } else {
        None
    }
}

#[tactic(auto, using(member_marks::specs::Local::on, member_marks::specs::Local::stays))]
fn take_page(state: &mut MemberState, page: PageId, marks: &mut Marks) -> Result<(), NoMemory>
    ensures reaches { Reaches marks.old marks.new }
{
    match frame_at_once(state, page, marks) {
        Some(frame) => {
            frame_given(state, page, frame);
            Ok(())
        }
        None => request_frame(state, page),
    }
}

// No change of it stands: its Ended record goes to the log, or is there already.
fn close(state: &mut MemberState, marks: &Marks) {
    let retry = if marks.is_log_empty() {
        RetryState::Writes
    } else {
        RetryState::Force
    };
    set_ready(state, retry);
}

// Goes on with the rollback in hand.
#[tactic(auto, using(member_marks::specs::Local::on, member_marks::specs::Local::stays))]
fn go_on(state: &mut MemberState, owner: &Owner, marks: &mut Marks) -> Result<(), NoMemory>
    ensures reaches { Reaches marks.old marks.new }
{
    match marks.undo_page(owner) {
        Some(page) => take_page(state, page, marks),
        None => {
            close(state, marks);
            Ok(())
        }
    }
}

/// Tries the rollback at this place.
#[tactic(auto, using(member_marks::specs::Local::on, member_marks::specs::Local::stays))]
pub fn begin_try(state: &mut MemberState, at: usize, marks: &mut Marks) -> Result<(), NoMemory>
    ensures reaches { Reaches marks.old marks.new }
{
    state.retried = at;
    match state.retried() {
        Some(owner) => go_on(state, &owner, marks),
        None => Ok(()),
    }
}

/// None is tried any more.
pub fn end_try(state: &mut MemberState) {
    state.retry = RetryState::None;
    state.stand_retry();
}

/// Whether the page's lock is asked for, or is to be. No other page's lock is meanwhile.
pub fn is_locking(state: &MemberState) -> bool {
    matches!(state.retry, RetryState::Lock { .. })
}

fn frame_of(state: &MemberState) -> Option<u16> {
    match state.retry {
        RetryState::Lock { frame, .. } | RetryState::Action { frame } => Some(frame),
        _ => None,
    }
}

// The frame of the page whose lock was asked for, where the member has it.
fn locked_frame(state: &MemberState, marks: &Marks) -> Option<u16> {
    match state.retry {
        RetryState::Lock { page, frame, .. } if marks.has_page(page) => Some(frame),
        _ => None,
    }
}

/// Where the member has the page's lock, choice 18, which has no action in hand, takes the change back.
pub fn submit_where_locked(state: &mut MemberState, marks: &Marks) {
    let Some(frame) = locked_frame(state, marks) else {
        return;
    };
    let Some(owner) = state.retried() else {
        return;
    };
    set_idle(state, RetryState::Action { frame });
    submit_first(state, &owner, marks);
}

#[tactic(auto, using(member_marks::specs::Local::on, member_marks::specs::Local::stays))]
fn unpin(state: &mut MemberState, marks: &mut Marks)
    ensures reaches { Reaches marks.old marks.new }
{
    if let Some(frame) = frame_of(state) {
        unpin_for_reader(state, frame, marks);
    }
}

/// Choice 18 has taken the change back; the next one follows, or the closing.
#[tactic(auto, using(member_marks::specs::Local::on, member_marks::specs::Local::stays))]
pub fn taken_back(state: &mut MemberState, owner: &Owner, marks: &mut Marks) -> Result<(), NoMemory>
    ensures reaches { Reaches marks.old marks.new }
{
    unpin(state, marks);
    go_on(state, owner, marks)
}

fn note_try(state: &mut MemberState, bell: u64) {
    let at = state.retried;
    if let Some(rollback) = state.rollbacks.get_mut(at) {
        rollback.tried = bell;
    }
}

// For the member that retains the page now.
#[tactic(auto, using(member_marks::specs::Local::on, member_marks::specs::Local::stays))]
fn wait_again(state: &MemberState, marks: &mut Marks)
    ensures reaches { Reaches marks.old marks.new }
{
    if let Some(rollback) = state.rollbacks.get(state.retried) {
        marks.wait_for(rollback.id);
    }
}

/// The page is still retained: the rollback waits on, and the next one is tried.
#[tactic(auto, using(member_marks::specs::Local::on, member_marks::specs::Local::stays))]
pub fn waits_on(state: &mut MemberState, event: &Event, marks: &mut Marks)
    ensures reaches { Reaches marks.old marks.new }
{
    unpin(state, marks);
    wait_again(state, marks);
    note_try(state, event.bell);
    end_try(state);
}
