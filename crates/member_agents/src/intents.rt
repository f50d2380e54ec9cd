//! What a seat wants of its next event.

use member_intents::Intent;
use member_marks::{Marks, Owner};
use member_state::{
    MemberState, Resources, SeatState, Standing, closing_intent, release_intent, test_intent,
};

/// The bytes of a Commit record.
const COMMIT_BYTES: u32 = 30;

fn commit_intent(marks: &Marks, slot: u8) -> Intent {
    if marks.log_room() < COMMIT_BYTES || marks.must_append() {
        Intent::Append
    } else {
        Intent::Commit { slot }
    }
}

fn intent_at(state: &SeatState, slot: u8, resources: &Resources) -> Intent {
    match state {
        SeatState::Lock { negotiation } => negotiation.intent(),
        SeatState::Post { holder, flag, .. } => Intent::Wait {
            slot,
            holder: *holder,
            flag: *flag,
        },
        SeatState::Unwait => Intent::Unwait { slot },
        SeatState::Read { frame } => test_intent(resources.marks(), *frame, 0, None),
        SeatState::Raise { flag } => Intent::Raise { flag: *flag },
        SeatState::Flag { flag } => Intent::Flag { flag: *flag },
        SeatState::CommitDraw => commit_intent(resources.marks(), slot),
        SeatState::Force => Intent::Append,
        SeatState::Writes => closing_intent(resources, &Owner::Slot(slot)),
        SeatState::Release { purge } => {
            release_intent(resources.marks(), &Owner::Slot(slot), purge)
        }
        SeatState::Leave => Intent::End {
            owner: Owner::Slot(slot),
        },
        SeatState::Lose => Intent::LoseCache,
        _ => Intent::Step,
    }
}

/// What the seat wants: nothing of the outside where its wait has ended, or where it takes a transaction.
pub fn seat_intent(state: &MemberState, slot: u8, resources: &Resources) -> Intent {
    if state.standing(slot as u64) == Standing::Ready {
        intent_at(&state.seat_state(slot), slot, resources)
    } else {
        Intent::Step
    }
}
