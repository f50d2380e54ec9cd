//! The steps of a search.
ghost use Rattle.std.specs.Prelude.{◌≡◌, ◌++◌, map, OnOk};
ghost use Rattle.deadlock_cycle.specs.Steps.{step_to};

use ds_base::TranId;
use std::alloc::AllocError;

/// A transaction, and the step of the one that it waits for.
#[derive(Clone, Copy, Debug, PartialEq, Eq)]
pub struct Step {
    pub at: TranId,
    pub next: usize,
}

/// Adds a step for each transaction that waits for the one of the step `next`.
pub fn add_steps(steps: &mut Vec<Step>, waiters: &[TranId], next: usize) -> Result<(), AllocError>
    ensures { OnOk result (steps.new.items ≡ steps.old.items ++ map (step_to next) waiters.now) }
{
    for waiter in waiters {
        steps.push(Step { at: *waiter, next })?;
    }
    Ok(())
}
