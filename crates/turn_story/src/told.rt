//! The machine of the turn that a relation makes.
ghost use Rattle.std.specs.Prelude.{◌≡◌, ◌≤◌, [], ◌∷◌, ◌++◌};
ghost use Rattle.turn_story.specs.declared.step.Step.{Step};

use crate::step::{Start, Step};
use crate::stepping::Stepping;
use ds_base::NoMemory;
use past_items::Past;
use std::alloc::Global;
use std::snapshot::Snapshot;
use turn_gate::{Laid, Look, Machine};

/// A value together with its start and its history, which are there for proofs alone and have no bytes.
#[derive(Drop)]
pub struct Told<M: Stepping> {
    pub value: M,
    pub start: Start<M, M::Part>,
    pub history: Past<Step<M, M::Part>>,
    pub ghost later: { M.tally start.value.value ≤ M.tally value },
}

impl<M: Stepping> Told<M> {
    /// The value before any event, with the part of each caller, the first caller's first.
    pub fn new(value: M, parts: &Vec<Laid<M::Part>>) -> Told<M>
        ensures value { result.value ≡ value }
        ensures start { (result.start.value.value ≡ value) × (result.start.parts.value ≡ parts.now) }
        ensures history { result.history.items ≡ [] }
    {
        let start = Start {
            value: Snapshot::of(&value),
            parts: Snapshot::of(parts),
        };
        Told {
            value,
            start,
            history: Past::new(),
        }
    }

    /// The value alone.
    pub fn into_value(self) -> M
        ensures value { result ≡ self.value }
        ensures later { M.tally self.start.value.value ≤ M.tally result }
    {
        let Told {
            value,
            start: _,
            history: _,
        } = self;
        value
    }

    // Adds an event to the history, with the value as it is now.
    fn note(&mut self, event: u64, part: &M::Part)
        ensures same { (self.new.value ≡ self.old.value) × (self.new.start ≡ self.old.start) }
        ensures history { (x : Step M M.Part) × (x.event ≡ event) × (x.value.value ≡ self.old.value) × (x.part.value ≡ part.now) × (self.new.history.items ≡ self.old.history.items ++ x ∷ []) }
    {
        let step = Step {
            event,
            value: Snapshot::of(&self.value),
            part: Snapshot::of(part),
        };
        self.history = self.history.and(&step);
    }
}

impl<M: Stepping> Machine for Told<M> {
    ghost use Rattle.std.specs.Prelude.{◌≡◌, Some};
    ghost use Rattle.turn_story.specs.Chains.{part_of};
    ghost use Rattle.turn_story.specs.Histories.{IsTold, value_after, parts_after};
    ghost use Rattle.turn_story.specs.Laws.{part_else, part_same};

    type Part = M::Part;

    type Start = Start<M, M::Part>;

    type Entry = Step<M, M::Part>;

    ghost event_of = { λ x. x.event };

    ghost caller = { M.caller };

    ghost start = { λ t. t.start };

    ghost story = { λ t. t.history.items };

    ghost sound = { λ t. IsTold M.caller M.steps t.start.value.value t.start.parts.value.items t.history.items t.value };

    ghost parted = { λ by p b log. part_of (parts_after M.caller b.parts.value.items log) by ≡ Some p };

    ghost alone = { λ p q. q ≡ p };

    ghost answers = { λ b log p from found. M.looks (value_after b.value.value log) p from found };

    fn run(&mut self, alloc: Global, part: &mut M::Part, event: u64) -> Result<(), NoMemory> {
        let ran = self.value.run(alloc, part, event);
        self.note(event, part);
        ran
    }

    fn look(&self, part: &M::Part, from: u64) -> Look {
        self.value.look(part, from)
    }

    ghost leaves = { λ by x p b log. part_else M.caller by x p b.parts.value.items log };

    ghost stays = { λ by p q b log. part_same (part_of (parts_after M.caller b.parts.value.items log) by) p q };
}
