//! Which choices are ready, and which events are those of a negotiation that goes on.

use member_intents::{Look, Outcome};
use member_retry::is_locking;
use member_state::{
    CASTOUT, CYCLES, DUTY, MemberState, PAGES, QUERY, RETRY, Run, RunState, SeatState, Standing,
};

/// After so many draws that found a bit clear, an action counts as waiting for room in the cache.
const STALE_DRAWS: u32 = 4;

/// Whether a choice waits for room in the cache, or the action's pages push each other out of it.
pub fn wants_room(state: &MemberState) -> bool {
    match &state.run {
        Some(run) if run.stales >= STALE_DRAWS => true,
        _ => !state.full.is_empty(),
    }
}

// Where the cache is lost, a castout that is wanted waits.
fn is_castout_ready(state: &MemberState, look: &Look) -> bool {
    state.castout.is_some() || (!look.is_lost && (look.is_half || wants_room(state)))
}

// A member whose rollback waits for a live one isn't done: it may go on with it in this phase.
fn is_done(state: &MemberState, look: &Look) -> bool {
    state.is_at_rest() && !look.waits_for_live
}

/// Whether the choice may be taken now.
pub fn is_ready(state: &MemberState, choice: u64, look: &Look) -> bool {
    match choice {
        DUTY => !look.is_done && is_done(state, look),
        QUERY => look.asked,
        CASTOUT => is_castout_ready(state, look),
        CYCLES => !state.waiting.is_empty() && state.standing(CYCLES).is_ready(look.bell),
        1..=16 | PAGES | RETRY => state.standing(choice).is_ready(look.bell),
        _ => false,
    }
}

// Whether a negotiation has come to its end.
fn is_end(outcome: &Outcome<'_>) -> bool {
    matches!(
        outcome,
        Outcome::Granted | Outcome::Conflict { .. } | Outcome::Refused
    )
}

fn run_locks(run: &Run) -> bool {
    matches!(run.state, RunState::Lock { .. })
}

fn pages_lock(state: &MemberState) -> bool {
    match (&state.service, &state.run) {
        (None, Some(run)) => run_locks(run) && state.standing(PAGES) == Standing::Ready,
        _ => false,
    }
}

fn seat_locks(state: &MemberState, choice: u64) -> bool {
    match state.seats.get(choice as usize) {
        Some(seat) => matches!(seat.state, SeatState::Lock { .. }),
        None => false,
    }
}

fn retry_locks(state: &MemberState) -> bool {
    is_locking(state) && state.standing(RETRY) == Standing::Ready
}

/// Whether this is an event of a negotiation that goes on. It changes nothing else.
pub fn negotiates(state: &MemberState, choice: u64, outcome: &Outcome<'_>) -> bool {
    let is_locking = match choice {
        1..=16 => seat_locks(state, choice),
        PAGES => pages_lock(state),
        RETRY => retry_locks(state),
        _ => false,
    };
    is_locking && !is_end(outcome)
}
