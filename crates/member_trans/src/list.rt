ghost use Rattle.std.specs.Prelude.{◌≡◌, [], length};
ghost use Rattle.member_trans.specs.Lists.{pushed};

use std::marker::Model;

/// As many slots as a member has agents at most.
const MOST: usize = 16;

/// Slots in an order.
#[derive(Drop)]
pub struct SlotList {
    slots: [u8; MOST],
    count: usize,
}

impl Model for SlotList {
    ghost use Rattle.std.specs.Prelude.{◌≤◌, ℕ, List, take};

    ghost Value = { List ℕ };

    ghost view = { λ l. take l.count l.slots };

    ghost invariant = { λ l. l.count ≤ 16 };
}

impl SlotList {
    pub fn new() -> SlotList
        ensures { result ≡ [] }
    {
        SlotList {
            slots: [0; MOST],
            count: 0,
        }
    }

    /// The slot stands behind the others. Where there are 16, nothing changes.
    pub fn push(&mut self, slot: u8)
        ensures { self.new ≡ pushed self.old slot }
    {
        if self.count < MOST {
            self.slots[self.count] = slot;
            self.count += 1;
        }
    }

    pub fn as_slice(&self) -> &[u8]
        ensures { result.now ≡ self.now }
    {
        &self.slots[..self.count]
    }
}
