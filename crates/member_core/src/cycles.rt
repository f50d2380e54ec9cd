//! Choice 21: the look for a cycle of waits. After a cycle it looks again at once; without one it waits for the bell.
ghost use Rattle.member_marks.specs.Local.{Reaches};

use ds_base::NoMemory;
use member_agents::refuse;
use member_intents::{Event, Intent, Outcome};
use member_marks::Marks;
use member_state::{CYCLES, MemberState, Standing};
use std::alloc::Global;

/// What the choice wants: nothing where its wait has ended.
pub fn cycles_intent(state: &MemberState) -> Intent {
    if state.standing(CYCLES) == Standing::Ready {
        Intent::Waits {
            slots: state.waiting.bits(),
        }
    } else {
        Intent::Step
    }
}

// The slot's transaction is the highest of a cycle, and is refused.
#[tactic(auto, using(member_marks::specs::Local::on, member_marks::specs::Local::stays))]
fn break_cycle(
    state: &mut MemberState,
    alloc: Global,
    slot: u8,
    event: &Event,
    marks: &mut Marks,
) -> Result<(), NoMemory>
    ensures reaches { Reaches marks.old marks.new }
{
    state.stand(CYCLES, Standing::Ready);
    state.unpark(slot as u64);
    refuse(state, alloc, slot, event, marks)
}

/// What the outcome of the choice's event makes of it.
#[tactic(auto, using(member_marks::specs::Local::on, member_marks::specs::Local::stays))]
pub fn take_for_cycles(
    state: &mut MemberState,
    alloc: Global,
    event: &Event,
    outcome: &Outcome<'_>,
    marks: &mut Marks,
) -> Result<(), NoMemory>
    ensures reaches { Reaches marks.old marks.new }
{
    match outcome {
        Outcome::Deadlock { slot } => return break_cycle(state, alloc, *slot, event, marks),
        Outcome::NoCycle => state.stand(CYCLES, Standing::Until(event.bell)),
        _ => state.stand(CYCLES, Standing::Ready),
    }
    Ok(())
}
