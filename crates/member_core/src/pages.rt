//! Choice 18: services and the page action.
ghost use Rattle.member_marks.specs.Local.{Reaches};

use crate::runs::take_for_run;
use crate::services::{service_intent, service_told};
use ds_base::NoMemory;
use member_actions::run_intent;
use member_intents::{Event, Intent, Outcome};
use member_marks::Marks;
use member_state::{MemberState, PAGES, Resources, Standing};
use std::alloc::Global;

fn next_intent(state: &MemberState, resources: &Resources) -> Intent {
    match (&state.service, &state.run) {
        (Some(service), _) => service_intent(*service, resources),
        (None, Some(run)) => run_intent(run, resources),
        (None, None) => Intent::Step,
    }
}

/// What the choice wants: nothing where its wait has ended.
pub fn pages_intent(state: &MemberState, resources: &Resources) -> Intent {
    if state.standing(PAGES) == Standing::Ready {
        next_intent(state, resources)
    } else {
        Intent::Step
    }
}

#[tactic(auto, using(member_marks::specs::Local::on, member_marks::specs::Local::stays))]
fn answered(
    state: &mut MemberState,
    alloc: Global,
    event: &Event,
    outcome: &Outcome<'_>,
    marks: &mut Marks,
) -> Result<(), NoMemory>
    ensures reaches { Reaches marks.old marks.new }
{
    match state.service {
        Some(service) => {
            service_told(state, service, outcome);
            Ok(())
        }
        None => take_for_run(state, alloc, event, outcome, marks),
    }
}

/// What the outcome of the choice's event makes of it.
#[tactic(auto, using(member_marks::specs::Local::on, member_marks::specs::Local::stays))]
pub fn take_for_pages(
    state: &mut MemberState,
    alloc: Global,
    event: &Event,
    outcome: &Outcome<'_>,
    marks: &mut Marks,
) -> Result<(), NoMemory>
    ensures reaches { Reaches marks.old marks.new }
{
    match outcome {
        Outcome::Lost => state.park(PAGES, event.bell, false),
        Outcome::CacheFull => state.park(PAGES, event.bell, true),
        Outcome::Forced => state.forced(),
        _ if state.standing(PAGES) == Standing::Ready => {
            return answered(state, alloc, event, outcome, marks);
        }
        _ => state.unpark(PAGES),
    }
    Ok(())
}
