//! The page action in hand, and its owner.
ghost use Rattle.member_marks.specs.Local.{Reaches};

use ds_base::{NoMemory, Volume};
use member_actions::{RunNext, run_told, unpin_all};
use member_agents::{action_done, refuse};
use member_intents::{Event, Outcome};
use member_marks::{Marks, Owner};
use member_retry::{taken_back, waits_on};
use member_state::{MemberState, RunState};
use std::alloc::Global;

// How the action in hand goes on.
#[tactic(auto, using(member_marks::specs::Local::on, member_marks::specs::Local::stays))]
fn next_of_run(
    state: &mut MemberState,
    event: &Event,
    outcome: &Outcome<'_>,
    marks: &mut Marks,
) -> RunNext
    ensures reaches { Reaches marks.old marks.new }
{
    match &mut state.run {
        Some(run) => run_told(run, state.heap_limit, event, outcome, marks),
        None => RunNext::GoesOn,
    }
}

// No action is in hand any more.
#[tactic(auto, using(member_marks::specs::Local::on, member_marks::specs::Local::stays))]
fn drop_run(state: &mut MemberState, marks: &mut Marks)
    ensures reaches { Reaches marks.old marks.new }
{
    if let Some(run) = &mut state.run {
        unpin_all(run, marks);
    }
    state.run = None;
}

fn owner_of(state: &MemberState) -> Owner {
    match &state.run {
        Some(run) => run.owner,
        None => Owner::Slot(0),
    }
}

// The event behind which anything may have freed the lock that the action asked for.
fn began(state: &MemberState, event: &Event) -> Event {
    let bell = match &state.run {
        Some(run) => match &run.state {
            RunState::Lock { negotiation } => negotiation.bell(),
            _ => event.bell,
        },
        None => event.bell,
    };
    Event {
        place: event.place,
        bell,
    }
}

fn note_damage(state: &mut MemberState, at: u32) {
    if let Some(run) = &state.run {
        state.damage = Some((Volume::Page(run.page), at as u64));
    }
}

// The action is made; its owner goes on.
#[tactic(auto, using(member_marks::specs::Local::on, member_marks::specs::Local::stays))]
fn run_done(
    state: &mut MemberState,
    alloc: Global,
    event: &Event,
    marks: &mut Marks,
) -> Result<(), NoMemory>
    ensures reaches { Reaches marks.old marks.new }
{
    let owner = owner_of(state);
    drop_run(state, marks);
    match &owner {
        Owner::Slot(slot) => action_done(state, alloc, *slot, event, marks),
        Owner::Rollback(_) => taken_back(state, &owner, marks),
    }
}

// The action can't be made: that is its owner's refusal, or a rollback waits.
#[tactic(auto, using(member_marks::specs::Local::on, member_marks::specs::Local::stays))]
fn run_refused(
    state: &mut MemberState,
    alloc: Global,
    event: &Event,
    marks: &mut Marks,
) -> Result<(), NoMemory>
    ensures reaches { Reaches marks.old marks.new }
{
    let owner = owner_of(state);
    let began = began(state, event);
    drop_run(state, marks);
    match &owner {
        Owner::Slot(slot) => refuse(state, alloc, *slot, &began, marks),
        Owner::Rollback(_) => {
            waits_on(state, &began, marks);
            Ok(())
        }
    }
}

/// The action goes on by what the event came to. Its end is handed to the owner, which goes on in this event.
#[tactic(auto, using(member_marks::specs::Local::on, member_marks::specs::Local::stays))]
pub fn take_for_run(
    state: &mut MemberState,
    alloc: Global,
    event: &Event,
    outcome: &Outcome<'_>,
    marks: &mut Marks,
) -> Result<(), NoMemory>
    ensures reaches { Reaches marks.old marks.new }
{
    match next_of_run(state, event, outcome, marks) {
        RunNext::GoesOn => Ok(()),
        RunNext::Damaged { at } => {
            note_damage(state, at);
            Ok(())
        }
        RunNext::Done => run_done(state, alloc, event, marks),
        RunNext::Refused => run_refused(state, alloc, event, marks),
    }
}
