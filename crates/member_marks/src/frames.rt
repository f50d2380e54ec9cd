ghost use Rattle.std.specs.Prelude.{◌≡◌, ◌≤◌, length, nat_lt, ◌&&◌, IfSome};
ghost use Rattle.member_pool.specs.Frames.{find_page};
ghost use Rattle.member_pool.specs.Heads.{
  head_of,
  has_free,
  victim_in,
  first_to_write as first_written,
  is_first_to_write as is_first_written,
};
ghost use Rattle.member_marks.specs.State.{MarksState};
ghost use Rattle.member_marks.specs.Frames.{
  frame_in,
  is_placed,
  first_changed,
  to_write,
  after_registered,
  after_filled,
  after_written,
  after_marked,
  after_unregister,
};

use crate::Marks;
use ds_base::{PageId, TableId};
use member_pool::{Frame, Heads, Rank};
use member_trans::{Owner, Trans};

/// The last page set of a table.
const LAST_SET: u16 = 128;

// The first page set that has changed frames among those that the owner's transaction has changed.
#[tactic(auto, using(crate::proofs::Writing::changed_step, crate::proofs::Writing::changed_none))]
fn first_changed(trans: &Trans, owner: &Owner, heads: &Heads) -> Option<u16>
    ensures first { result ≡ first_changed heads.now trans.now owner.now 1 128 }
    ensures range { IfSome result (λ set. (1 ≤ set) × (set ≤ 128)) }
{
    for set in 1..LAST_SET + 1 {
        if trans.has_set(owner, set) && heads.has_changed(set) {
            return Some(set);
        }
    }
    None
}

impl Marks {
    /// How many frames there are.
    pub fn frames(&self) -> u16
        ensures { result ≡ length self.now.heads.frames }
    {
        self.heads.len()
    }

    /// What the frame holds, and how it is used.
    pub fn frame(&self, at: u16) -> Frame
        ensures { result ≡ frame_in self.now.heads at }
    {
        if at < self.heads.len() {
            self.heads.frame(at)
        } else {
            Frame::free()
        }
    }

    /// The frame that holds the page.
    pub fn find(&self, page: PageId) -> Option<u16>
        ensures { result ≡ find_page self.now.heads.frames page }
    {
        self.heads.find(page)
    }

    pub fn has_free(&self) -> bool
        ensures { result ≡ has_free self.now.heads }
    {
        self.heads.has_free()
    }

    /// The unpinned frame that was used longest ago; a free one counts as used longest ago.
    pub fn victim(&self) -> Option<u16>
        ensures { result ≡ victim_in self.now.heads }
    {
        self.heads.victim()
    }

    /// The changed frame of the table that is written before all others.
    pub fn first_to_write(&self, table: TableId) -> Option<u16>
        ensures { result ≡ first_written self.now.heads table }
    {
        self.heads.first_to_write(table)
    }

    /// Whether the frame is changed, and no other of its table is written before it.
    pub fn is_first_to_write(&self, at: u16) -> bool
        ensures { result ≡ (nat_lt at (length self.now.heads.frames) && is_first_written self.now.heads at) }
    {
        at < self.heads.len() && self.heads.is_first_to_write(at)
    }

    /// The frame that is to be written next while pages of the transaction's page sets are changed: the first of the table
    /// of the first such page set.
    pub fn to_write(&self, owner: &Owner) -> Option<u16>
        ensures { result ≡ to_write self.now owner.now }
    {
        let set = first_changed(&self.trans, owner, &self.heads)?;
        self.heads
            .first_to_write(TableId::new((set as u64 + 1) / 2)?)
    }

    pub(crate) fn is_placed(&self, at: u16) -> bool
        ensures { result ≡ is_placed self.now.heads at }
    {
        self.frame(at).page.is_some()
    }
}

impl Marks {
    /// Sets the mark of a frame that is registered for its page.
    pub fn set_registered(&mut self, at: u16, registered: bool)
        ensures { self.new ≡ after_registered self.old at registered }
    {
        if self.is_placed(at) {
            self.heads.set_registered(at, registered);
        }
    }

    /// Sets the mark of a frame into which its page was read.
    pub fn set_filled(&mut self, at: u16, filled: bool)
        ensures { self.new ≡ after_filled self.old at filled }
    {
        if self.is_placed(at) {
            self.heads.set_filled(at, filled);
        }
    }

    /// The page was written: the frame isn't changed, and is registered.
    pub fn set_written(&mut self, at: u16)
        ensures { self.new ≡ after_written self.old at }
    {
        if self.is_placed(at) {
            self.heads.mark_written(at);
            self.heads.set_registered(at, true);
        }
    }

    /// The page was changed; this is its rank in the write order.
    pub fn mark_changed(&mut self, at: u16, rank: Rank)
        ensures { self.new ≡ after_marked self.old at rank }
    {
        if self.is_placed(at) {
            self.heads.mark_changed(at, rank);
        }
    }

    /// The frame is free.
    pub fn unregister(&mut self, at: u16)
        ensures { self.new ≡ after_unregister self.old at }
    {
        if at < self.heads.len() {
            self.heads.drop_page(at);
        }
    }
}
