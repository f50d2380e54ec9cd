//! What choice 22 wants of its next event.

use member_intents::Intent;
use member_marks::Owner;
use member_state::{
    MemberState, RETRY, Resources, RetryState, Standing, closing_intent, release_intent,
};

fn intent_of(state: &RetryState, owner: &Owner, resources: &Resources) -> Intent {
    match state {
        RetryState::Lock { negotiation, .. } => negotiation.intent(),
        RetryState::Force => Intent::Append,
        RetryState::Writes => closing_intent(resources, owner),
        RetryState::Release { purge } => release_intent(resources.marks(), owner, purge),
        RetryState::None | RetryState::Frame { .. } | RetryState::Action { .. } => Intent::Step,
    }
}

/// What the choice wants: nothing of the outside where its wait has ended.
pub fn retry_intent(state: &MemberState, resources: &Resources) -> Intent {
    match state.retried() {
        Some(owner) if state.standing(RETRY) == Standing::Ready => {
            intent_of(&state.retry, &owner, resources)
        }
        _ => Intent::Step,
    }
}
