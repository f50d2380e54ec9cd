//! Cycles of waits.

ghost use Rattle.std.specs.Prelude.{◌≡◌, IfOk, OnErr};
ghost use Rattle.std.specs.Int.{bit_at};
ghost use Rattle.member_needs.specs.Given.{slot_id};
ghost use Rattle.member_effects.specs.Cycles.{is_looked, Finds, cycle_after, cycle_told, RefusesCycle};

use crate::told::Told;
use deadlock_cycle::find_cycle;
use ds_base::NoMemory;
use ds_model::{Cycle, Refusal};
use list_structure::Wait;
use member_needs::{Marks, Owner};
use std::alloc::Global;

/// The highest slot of an agent.
const LAST_SLOT: u8 = 16;

// Whether the slot is one of these, and its transaction goes forward.
fn is_looked(marks: &Marks, slots: u32, slot: u8) -> bool
    ensures { result ≡ is_looked marks.now slots slot }
{
    slot < 32 && slots >> slot & 1 == 1 && marks.is_forward(slot)
}

// The first of the slots whose transaction goes forward and is the highest of a cycle, and the cycle.
fn first_cycle(
    alloc: Global,
    marks: &Marks,
    waits: &[Wait],
    slots: u32,
) -> Result<Option<(u8, Cycle)>, NoMemory>
    ensures { IfOk result (Finds marks.now waits.now slots) }
{
    for slot in 1..LAST_SLOT + 1 {
        if is_looked(marks, slots, slot) {
            if let Some(cycle) = find_cycle(alloc, waits, marks.tran(&Owner::Slot(slot)))? {
                return Ok(Some((slot, cycle)));
            }
        }
    }
    Ok(None)
}

fn refuse_first(marks: &mut Marks, found: Option<(u8, Cycle)>, place: u64) -> Told
    ensures told { result ≡ cycle_told found }
    ensures after { marks.new ≡ cycle_after marks.old place found }
{
    match found {
        Some((slot, cycle)) => {
            marks.offer(&Owner::Slot(slot), Refusal::Deadlock { cycle }, place);
            Told::Deadlock { slot }
        }
        None => Told::NoCycle,
    }
}

/// Looks for a cycle of these waits in which the transaction of one of these slots is the highest.
pub fn cycle_refused(
    alloc: Global,
    marks: &mut Marks,
    waits: &[Wait],
    slots: u32,
    place: u64,
) -> Result<Told, NoMemory>
    ensures ok { IfOk result (λ answer. RefusesCycle marks.old waits.now slots place answer marks.new) }
    ensures err { OnErr result (marks.new ≡ marks.old) }
{
    let found = first_cycle(alloc, marks, waits, slots)?;
    Ok(refuse_first(marks, found, place))
}
