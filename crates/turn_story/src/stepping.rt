//! What is told by a relation.
ghost use Rattle.std.specs.Prelude.{ℕ, ◌≤◌, OnOk};

use ds_base::NoMemory;
use std::alloc::Global;
use turn_gate::Look;

/// A value and a part for each caller, whose events are told by a relation.
pub trait Stepping {
    ghost use Rattle.turn_gate.specs.declared.answer.Look.{Look};

    /// What one caller holds itself, outside the value.
    type Part;

    /// Whose event it is, by its number. Callers are counted from 1.
    ghost caller: { ℕ → ℕ };

    /// From a value and its caller's part the event may lead to those: first what stands before it, then the event's number.
    ghost steps: { Self → Self.Part → ℕ → Self → Self.Part → Type 0 };

    /// What a look at this value with this part, from this number on, may answer.
    ghost looks: { Self → Self.Part → ℕ → Look → Type 0 };

    /// A number that no event makes less, and none for which memory was wanting.
    ghost tally: { Self → ℕ };

    /// Runs one event of the part's caller. After `NoMemory` neither the value nor the part is used any more.
    fn run(&mut self, alloc: Global, part: &mut Self::Part, event: u64) -> Result<(), NoMemory>
        ensures steps { OnOk result (steps self.old part.old event self.new part.new) }
        ensures later { tally self.old ≤ tally self.new };

    /// What the part's caller can run, by number, from `from` on.
    fn look(&self, part: &Self::Part, from: u64) -> Look
        ensures { looks self.now part.now from result };
}
