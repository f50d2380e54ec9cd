//! What an event's outcome makes of the page action.
ghost use Rattle.member_marks.specs.Local.{Reaches};

use crate::frames::{lock_held, negotiate};
use crate::looks::{look_told, work_done};
use member_intents::{Event, Outcome};
use member_marks::Marks;
use member_state::{Run, RunState};
use plock_negotiate::Progress;

/// How a page action is after an event.
#[derive(Clone, Copy, Debug, PartialEq, Eq)]
pub enum RunNext {
    GoesOn,
    /// It was made, or isn't needed any more.
    Done,
    /// It can't be made; the marks keep why.
    Refused,
    /// The byte at this offset of the page in hand can't stand there.
    Damaged { at: u32 },
}

fn progress(run: &mut Run, event: &Event, outcome: &Outcome<'_>) -> Progress {
    match &mut run.state {
        RunState::Lock { negotiation } => negotiation.take(outcome, event),
        RunState::Frame | RunState::Test | RunState::Draw => Progress::GoesOn,
    }
}

// Others don't answer that a page is in the way: they give it up. So a conflict begins it anew.
fn lock_told(run: &mut Run, event: &Event, outcome: &Outcome<'_>) -> RunNext {
    match progress(run, event, outcome) {
        Progress::GoesOn => {}
        Progress::Granted => lock_held(run),
        Progress::Conflict { .. } => negotiate(run),
        Progress::Refused => return RunNext::Refused,
    }
    RunNext::GoesOn
}

// A bit was clear as the number was to be drawn.
fn stale(run: &mut Run) -> RunNext {
    run.stales = run.stales.saturating_add(1);
    RunNext::GoesOn
}

/// The action goes on by what the event came to. A heap may have `limit` pages of rows.
#[tactic(auto, using(member_marks::specs::Local::on, member_marks::specs::Local::stays))]
pub fn run_told(
    run: &mut Run,
    limit: u32,
    event: &Event,
    outcome: &Outcome<'_>,
    marks: &mut Marks,
) -> RunNext
    ensures reaches { Reaches marks.old marks.new }
{
    match (run.state, outcome) {
        (RunState::Lock { .. }, _) => lock_told(run, event, outcome),
        (RunState::Test, Outcome::Valid { page }) => look_told(run, limit, page, marks),
        (RunState::Draw, Outcome::Drawn) => work_done(run, marks),
        (RunState::Draw, Outcome::Stale { .. }) => stale(run),
        (RunState::Test | RunState::Draw, Outcome::Refused) => RunNext::Refused,
        _ => RunNext::GoesOn,
    }
}
