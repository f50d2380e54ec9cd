ghost use Rattle.std.specs.Prelude.{◌≡◌, replicate};

use crate::sets::SetMask;
use std::marker::Model;

/// How many numbers there are for page sets: 0 stands for none.
const SETS: usize = 129;

/// How many frames of each page set are changed, and of which there are some.
#[derive(Drop)]
pub struct SetCounts {
    counts: [u16; SETS],
    sets: SetMask,
}

impl Model for SetCounts {
    ghost use Rattle.std.specs.Prelude.{ℕ, List};
    ghost use Rattle.member_pool.specs.Counts.{AreCounted};

    ghost Value = { List ℕ };

    ghost view = { λ c. c.counts };

    ghost invariant = { λ c. AreCounted c.counts c.sets };
}

impl SetCounts {
    ghost use Rattle.std.specs.Prelude.{◌<◌, ◌+◌, ◌-◌, ◌^◌, ◌&&◌, ℕ, nat_lt, slice_index, slice_set};
    ghost use Rattle.member_pool.specs.Marks.{is_page_set};
    ghost use Rattle.member_pool.specs.Sets.{has_set};

    /// No frame is changed.
    pub fn new() -> SetCounts
        ensures { result ≡ replicate 129 0 }
    {
        SetCounts {
            counts: no_counts(),
            sets: SetMask::none(),
        }
    }

    /// One more frame of the page set is changed.
    pub fn add(&mut self, set: u16)
        requires { slice_index self.old set < 2 ^ 16 - 1 }
        ensures { self.new ≡ slice_set self.old set (slice_index self.old set + 1) }
    {
        if (set as usize) < SETS {
            self.counts[set as usize] += 1;
            self.sets.insert(set);
        }
    }

    /// One frame less of the page set is changed.
    pub fn take(&mut self, set: u16)
        ensures { self.new ≡ slice_set self.old set (slice_index self.old set - 1) }
    {
        if (set as usize) < SETS {
            let left = self.counts[set as usize].saturating_sub(1);
            self.counts[set as usize] = left;
            if left == 0 {
                self.sets.remove(set);
            }
        }
    }

    /// Whether a frame of the page set is changed.
    pub fn has(&self, set: u16) -> bool
        ensures { result ≡ (is_page_set set && nat_lt 0 (slice_index self.now set)) }
    {
        self.sets.contains(set)
    }

    /// The page sets of which a frame is changed.
    pub fn sets(&self) -> SetMask
        ensures { (s : ℕ) → has_set result s ≡ (is_page_set s && nat_lt 0 (slice_index self.now s)) }
    {
        self.sets
    }

    /// No frame is changed any more.
    pub fn clear(&mut self)
        ensures { self.new ≡ replicate 129 0 }
    {
        *self = SetCounts::new();
    }
}

fn no_counts() -> [u16; SETS]
    ensures { result ≡ replicate 129 0 }
{
    [0; SETS]
}
