//! What the transaction of a seat wants next, and what its agent is told.
ghost use Rattle.member_marks.specs.Local.{Reaches};

use ds_base::{NoMemory, PageId};
use ds_model::Refusal;
use lock_names::{Mode, Name};
use member_marks::Marks;
use member_state::MemberState;
use page_plans::Action;
use std::alloc::Global;
use tran_core::{Action as Wish, Agent, Met, Want};

/// What a transaction wants next, with all that it names.
#[derive(Clone, Copy, Debug)]
pub enum Wanted {
    Page(PageId),
    Lock(Name, Mode),
    Change(Action),
    Commit,
    Undo,
    Raise(u8),
    Await(u8),
    LoseCache,
    Ended,
}

fn action_of(wish: &Wish<'_>) -> Action {
    match *wish {
        Wish::FormatIndex { table } => Action::FormatIndex { table },
        Wish::FormatHeap { table } => Action::FormatHeap { table },
        Wish::GiveSlot { table, key, leaf } => Action::GiveSlot { table, key, leaf },
        Wish::Split { table, left } => Action::Split { table, left },
        Wish::BranchEntry {
            table,
            branch,
            low,
            child,
        } => Action::BranchEntry {
            table,
            branch,
            low,
            child,
        },
        Wish::RowChange {
            table,
            key,
            place,
            after,
        } => Action::RowChange {
            table,
            key,
            place,
            after: after.copied(),
        },
    }
}

fn wanted_by(agent: &Agent) -> Wanted {
    match agent.want() {
        Want::Lock { name, mode } => Wanted::Lock(name, mode),
        Want::ReadPage { id } => Wanted::Page(id),
        Want::Change { action } => Wanted::Change(action_of(&action)),
        Want::Commit => Wanted::Commit,
        Want::Undo { .. } => Wanted::Undo,
        Want::Raise { flag } => Wanted::Raise(flag),
        Want::Await { flag } => Wanted::Await(flag),
        Want::LoseCache => Wanted::LoseCache,
        Want::Ended => Wanted::Ended,
    }
}

/// What the seat's transaction wants. Nothing without one, and nothing any more once it has found damage, which is noted.
pub fn next_want(state: &mut MemberState, slot: u8) -> Option<Wanted> {
    let agent = state.seats.get(slot as usize)?.agent.as_ref()?;
    match agent.damage() {
        Some(damage) => {
            state.damage = Some(damage);
            None
        }
        None => Some(wanted_by(agent)),
    }
}

// Tells the agent, where there is one.
fn tell(
    state: &mut MemberState,
    alloc: Global,
    slot: u8,
    answer: &Met<'_>,
) -> Result<(), NoMemory> {
    match state.seats.get_mut(slot as usize) {
        Some(seat) => match &mut seat.agent {
            Some(agent) => agent.met(alloc, answer),
            None => Ok(()),
        },
        None => Ok(()),
    }
}

/// Tells the agent that its transaction is refused.
pub fn tell_refused(state: &mut MemberState, alloc: Global, slot: u8) -> Result<(), NoMemory> {
    tell(state, alloc, slot, &Met::Refused(Refusal::Aborted))
}

/// Tells the agent how its want was met. Without memory for that its transaction is refused.
#[tactic(auto, using(member_marks::specs::Local::on, member_marks::specs::Local::stays))]
pub fn tell_met(
    state: &mut MemberState,
    alloc: Global,
    slot: u8,
    answer: &Met<'_>,
    marks: &mut Marks,
) -> Result<(), NoMemory>
    ensures reaches { Reaches marks.old marks.new }
{
    if tell(state, alloc, slot, answer).is_ok() {
        return Ok(());
    }
    if !marks.refuse_for_memory(slot) {
        return Err(NoMemory);
    }
    tell_refused(state, alloc, slot)
}
