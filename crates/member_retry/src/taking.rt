//! What an event's outcome makes of choice 22.
ghost use Rattle.member_marks.specs.Local.{Reaches};

use crate::trying::{begin_try, end_try, frame_given, waits_on};
use ds_base::NoMemory;
use member_intents::{Event, Outcome};
use member_marks::Marks;
use member_state::{MemberState, RETRY, RetryState, Standing, purge_after};
use plock_negotiate::Progress;

// The place of the first rollback that was last tried before this bell.
fn next_try(state: &MemberState, bell: u64) -> Option<usize> {
    state
        .rollbacks
        .iter()
        .position(|rollback| rollback.tried < bell)
}

// A wait has ended.
#[tactic(auto, using(member_marks::specs::Local::on, member_marks::specs::Local::stays))]
fn wakes(state: &mut MemberState, event: &Event, marks: &mut Marks) -> Result<(), NoMemory>
    ensures reaches { Reaches marks.old marks.new }
{
    state.unpark(RETRY);
    match (state.retry, next_try(state, event.bell)) {
        (RetryState::None, Some(at)) => begin_try(state, at, marks),
        _ => Ok(()),
    }
}

// How far the negotiation has come, and its bell.
fn negotiated(state: &mut MemberState, event: &Event, outcome: &Outcome<'_>) -> (Progress, u64) {
    match &mut state.retry {
        RetryState::Lock { negotiation, .. } => {
            let progress = negotiation.take(outcome, event);
            (progress, negotiation.bell())
        }
        _ => (Progress::GoesOn, event.bell),
    }
}

// The page's lock is asked for from the beginning, unless the member has it.
fn lock_anew(state: &mut MemberState) {
    if let RetryState::Lock { page, frame, .. } = state.retry {
        frame_given(state, page, frame);
    }
}

// Others don't answer that a page is in the way: they give it up. So a conflict begins it anew.
#[tactic(auto, using(member_marks::specs::Local::on, member_marks::specs::Local::stays))]
fn lock_told(state: &mut MemberState, event: &Event, outcome: &Outcome<'_>, marks: &mut Marks)
    ensures reaches { Reaches marks.old marks.new }
{
    let (progress, bell) = negotiated(state, event, outcome);
    let began = Event {
        place: event.place,
        bell,
    };
    match progress {
        Progress::GoesOn => {}
        Progress::Granted | Progress::Conflict { .. } => lock_anew(state),
        Progress::Refused => waits_on(state, &began, marks),
    }
}

fn rollback_over(state: &mut MemberState) {
    let at = state.retried;
    if at < state.rollbacks.len() {
        let _over = state.rollbacks.remove(at);
    }
    end_try(state);
}

// A page was written, a lock was given up, a name was purged, or the rollback is over.
fn closing_told(state: &mut MemberState, outcome: &Outcome<'_>, marks: &Marks) {
    match outcome {
        Outcome::Released { name } => {
            let purge = purge_after(marks, name);
            state.retry = RetryState::Release { purge };
        }
        Outcome::Purged => state.retry = RetryState::Release { purge: None },
        Outcome::Ended => rollback_over(state),
        _ => {}
    }
}

#[tactic(auto, using(member_marks::specs::Local::on, member_marks::specs::Local::stays))]
fn answered(state: &mut MemberState, event: &Event, outcome: &Outcome<'_>, marks: &mut Marks)
    ensures reaches { Reaches marks.old marks.new }
{
    match state.retry {
        RetryState::Lock { .. } => lock_told(state, event, outcome, marks),
        RetryState::Writes | RetryState::Release { .. } => closing_told(state, outcome, marks),
        _ => {}
    }
}

/// What the outcome of the choice's event makes of it.
#[tactic(auto, using(member_marks::specs::Local::on, member_marks::specs::Local::stays))]
pub fn take_for_retry(
    state: &mut MemberState,
    event: &Event,
    outcome: &Outcome<'_>,
    marks: &mut Marks,
) -> Result<(), NoMemory>
    ensures reaches { Reaches marks.old marks.new }
{
    match outcome {
        Outcome::Lost => state.park(RETRY, event.bell, false),
        Outcome::CacheFull => state.park(RETRY, event.bell, true),
        Outcome::Forced => state.forced(),
        _ if state.standing(RETRY) == Standing::Ready => answered(state, event, outcome, marks),
        _ => return wakes(state, event, marks),
    }
    Ok(())
}
