//! A machine that keeps its event numbers alone.
ghost use Rattle.std.specs.Prelude.{◌≡◌, [], ◌∷◌, ◌++◌, Some, None, OnOk, OnErr};

use ds_base::NoMemory;
use std::alloc::Global;
use turn_gate::{Look, Machine};

/// The event numbers so far. `lost` is one that found no memory.
#[derive(Drop)]
pub struct Recorder {
    pub events: Vec<u64>,
    pub lost: Option<u64>,
}

impl Recorder {
    pub fn new(alloc: Global) -> Recorder
        ensures { (result.events.items ≡ []) × (result.lost ≡ None) }
    {
        Recorder {
            events: Vec::new(alloc),
            lost: None,
        }
    }

    pub fn add(&mut self, event: u64) -> Result<(), NoMemory>
        ensures ok { OnOk result ((self.new.events.items ≡ self.old.events.items ++ event ∷ []) × (self.new.lost ≡ self.old.lost)) }
        ensures err { OnErr result ((self.new.events.items ≡ self.old.events.items) × (self.new.lost ≡ Some event)) }
    {
        if self.events.push(event).is_err() {
            self.lost = Some(event);
            return Err(NoMemory);
        }
        Ok(())
    }
}

impl Machine for Recorder {
    ghost use Rattle.std.specs.Prelude.{◌≡◌, leb, ◌++◌, length, option_to_list, None};
    ghost use Rattle.turn_trial.specs.Recorded.{caller_of, Counts, look_at};
    ghost use Rattle.turn_trial.specs.Laws.{counts_else, counts_same};

    /// How many events the caller has had, modulo 2^64.
    type Part = u64;

    type Start = u64;

    type Entry = u64;

    ghost event_of = { λ x. x };

    ghost caller = { caller_of };

    ghost start = { λ _. 0 };

    ghost story = { λ r. r.events.items ++ option_to_list r.lost };

    ghost sound = { λ r. r.lost ≡ None };

    ghost parted = { λ by part _ log. Counts by part log };

    ghost alone = { λ p q. q ≡ p };

    ghost answers = { λ _ log _ from found. found ≡ look_at (leb from (length log)) (length log) };

    fn run(&mut self, _: Global, part: &mut u64, event: u64) -> Result<(), NoMemory> {
        *part = part.wrapping_add(1);
        self.add(event)
    }

    fn look(&self, _: &u64, from: u64) -> Look {
        let count = self.events.len() as u64;
        if from <= count {
            Look::Ready(count)
        } else {
            Look::NotYet
        }
    }

    ghost leaves = { counts_else };

    ghost stays = { counts_same };
}
