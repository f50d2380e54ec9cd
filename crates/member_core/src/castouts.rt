//! Choice 19: castout. It never waits: after a page that isn't changed any more, or is locked by another, the next is tried.

use cache_structure::{CastReply, DoneReply};
use castout::{CastAnswer, CastStep, Castout};
use ds_base::PageId;
use member_intents::{Intent, Outcome};
use member_state::MemberState;

fn step_intent(castout: &Castout) -> Intent {
    match castout.next() {
        CastStep::Read(page) => Intent::CastoutRead { page },
        CastStep::Write(_) => Intent::CastoutWrite,
        CastStep::Done(_) => Intent::CastoutDone,
    }
}

/// What the choice wants.
pub fn castout_intent(state: &MemberState) -> Intent {
    match &state.castout {
        Some(castout) => step_intent(castout),
        None => Intent::NextChanged {
            after: state.cast_after,
        },
    }
}

// All but the two by which it goes on end it.
fn cast_answer(outcome: &Outcome<'_>) -> CastAnswer {
    match outcome {
        Outcome::Taken => CastAnswer::Cast(CastReply::Taken),
        Outcome::CastoutWritten => CastAnswer::Written,
        _ => CastAnswer::Done(DoneReply::Done),
    }
}

fn changed_page(outcome: &Outcome<'_>) -> Option<PageId> {
    match outcome {
        Outcome::ChangedPage(page) => Some(*page),
        _ => None,
    }
}

// The next page is sought, from the first one on where there was none.
fn begin_castout(state: &mut MemberState, page: Option<PageId>) {
    state.cast_after = page;
    state.castout = match page {
        Some(page) => Some(Castout::new(page)),
        None => None,
    };
}

// Whether a castout is in hand and has ended; none where none is in hand.
fn castout_ends(state: &mut MemberState, outcome: &Outcome<'_>) -> Option<bool> {
    match &mut state.castout {
        Some(castout) => Some(castout.take(&cast_answer(outcome))),
        None => None,
    }
}

/// What the outcome of the choice's event makes of it.
pub fn take_for_castout(state: &mut MemberState, outcome: &Outcome<'_>) {
    match castout_ends(state, outcome) {
        Some(true) => state.castout = None,
        Some(false) => {}
        None => begin_castout(state, changed_page(outcome)),
    }
}
