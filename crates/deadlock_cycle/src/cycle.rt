//! The search for a cycle.
ghost use Rattle.std.specs.Prelude.{◌≡◌, ◌<◌, List, true, length, IfOk, IfSome, IfNone};
ghost use Rattle.std.specs.List.{IsDistinct};
ghost use Rattle.deadlock_cycle.specs.Cycles.{IsCycle, same_tran, waits_for};
ghost use Rattle.deadlock_cycle.specs.Steps.{step_at, GoesBack, GoesToFirst, IsFirst, LeadsTo};
ghost use Rattle.list_structure.specs.declared.wait.Wait.{Wait};
ghost use Rattle.ds_base.specs.declared.names.TranId.{TranId};

use crate::step::{Step, add_steps};
use crate::waiters::Waiters;
use ds_base::{NoMemory, TranId};
use ds_model::Cycle;
use list_structure::Wait;
use std::alloc::Global;

/// A cycle of the pairs through this transaction in which it has the highest number, from it on: each
/// transaction waits for the next, and the last for the first, and none stands twice. A transaction that waits for itself is
/// such a cycle.
///
/// Takes time in the number of pairs and its logarithm.
pub fn find_cycle(alloc: Global, waits: &[Wait], tran: TranId) -> Result<Option<Cycle>, NoMemory>
    ensures cycle { IfOk result (λ found. IfSome found (λ cycle. IsCycle waits.now tran cycle)) }
    ensures once { IfOk result (λ found. IfSome found (λ cycle. IsDistinct same_tran cycle)) }
    ensures none { IfOk result (λ found. IfNone found ((cycle : List TranId) → ¬ IsCycle waits.now tran cycle)) }
{
    let mut waiters = Waiters::new(alloc, waits, tran.number)?;
    let mut steps = Vec::new(alloc);
    steps.push(Step { at: tran, next: 0 })?;
    let mut next = 0;
    while next < steps.len() {
        let list = waiters.take(alloc, steps[next].at);
        if list.contains(&tran) {
            return Ok(Some(cycle_from(alloc, &steps, next)?));
        }
        add_steps(&mut steps, &list, next)?;
        next += 1;
    }
    Ok(None)
}

// The cycle of the first step's transaction where it waits for the one of this step.
fn cycle_from(alloc: Global, steps: &[Step], from: usize) -> Result<Cycle, NoMemory>
    requires there { from < length steps.now }
    requires back { GoesBack steps.now }
    requires first { IsFirst steps.now from }
    requires firsts { GoesToFirst steps.now }
    ensures once { IfOk result (λ cycle. IsDistinct same_tran cycle) }
    ensures cycle { IfOk result (λ cycle. (waits : List Wait) (tran : TranId) → LeadsTo waits tran steps.now → waits_for waits tran (step_at steps.now from).at ≡ true → IsCycle waits tran cycle) }
{
    let mut cycle = Cycle::new(alloc);
    cycle.push(steps[0].at)?;
    let mut at = from;
    while at > 0 {
        let step = steps[at];
        cycle.push(step.at)?;
        at = step.next;
    }
    Ok(cycle)
}
