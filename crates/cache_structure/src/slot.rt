ghost use Rattle.std.specs.Prelude.{◌≡◌, ◌==◌, ℕ, false, is_none, length, replicate, IfOk};
ghost use Rattle.std.specs.Option.{option_map_or};
ghost use Rattle.cache_structure.specs.Slots.{
  holding,
  free_slot,
  slot_at,
  is_idle_slot,
  rewritten,
  locked_for,
  unlocked,
  freed_slot,
  changed_page,
  page_of,
};
ghost use Rattle.cache_structure.specs.Replies.{cast_reply_for};

use crate::face::CastReply;
use ds_base::{MemberId, NoMemory, PageId};
use page_index::HoldsPage;
use std::alloc::Global;

/// A slot of the directory: an entry without its bytes, or nothing.
#[derive(Clone, Copy, Debug, PartialEq, Eq)]
pub struct Slot {
    /// The page whose entry stands here, or `None` in a free slot.
    pub page: Option<PageId>,
    /// The entry has bytes.
    pub filled: bool,
    /// The bytes were written since the page was last cast out.
    pub changed: bool,
    /// The member that holds the castout lock.
    pub castout: Option<MemberId>,
    /// The bytes were written since the castout lock was taken.
    pub written: bool,
}

impl Slot {
    /// A slot that holds no entry.
    pub fn free() -> Slot
        ensures { result ≡ free_slot }
    {
        Slot {
            page: None,
            filled: false,
            changed: false,
            castout: None,
            written: false,
        }
    }

    /// A slot with a new entry of the page.
    pub fn holding(id: PageId) -> Slot
        ensures { result ≡ holding id }
    {
        Slot {
            page: Some(id),
            ..Slot::free()
        }
    }

    /// Whether no entry stands here.
    pub fn is_free(&self) -> bool
        ensures { result ≡ is_none self.now.page }
    {
        self.page.is_none()
    }

    /// Whether an entry stands here that may be reclaimed.
    pub fn is_idle(&self) -> bool
        ensures { result ≡ is_idle_slot self.now }
    {
        self.page.is_some() && !self.changed && self.castout.is_none()
    }

    /// The slot once new bytes were written to its entry.
    pub fn rewritten(&self) -> Slot
        ensures { result ≡ rewritten self.now }
    {
        Slot {
            page: self.page,
            filled: true,
            changed: true,
            castout: self.castout,
            written: true,
        }
    }

    /// The slot once the member took the castout lock.
    pub fn locked_for(&self, member: MemberId) -> Slot
        ensures { result ≡ locked_for member self.now }
    {
        Slot {
            page: self.page,
            filled: self.filled,
            changed: self.changed,
            castout: Some(member),
            written: false,
        }
    }

    /// The slot once the castout lock was freed at the end of a castout.
    pub fn unlocked(&self) -> Slot
        ensures { result ≡ unlocked self.now }
    {
        Slot {
            page: self.page,
            filled: self.filled,
            changed: self.changed && self.written,
            castout: None,
            written: self.written,
        }
    }

    /// Whether the member holds the castout lock.
    pub fn is_locked_for(&self, member: MemberId) -> bool
        ensures { result ≡ option_map_or (λ by. by == member) self.now.castout false }
    {
        match self.castout {
            Some(by) => by == member,
            None => false,
        }
    }

    /// What the member is answered that wants the castout lock.
    pub fn cast_reply(&self, member: MemberId) -> CastReply
        ensures { result ≡ cast_reply_for member self.now.changed self.now.castout }
    {
        if !self.changed {
            return CastReply::NotChanged;
        }
        match self.castout {
            Some(by) if by != member => CastReply::Locked { by },
            _ => CastReply::Taken,
        }
    }

    /// The slot without the castout lock, if that is the member's.
    pub fn freed(&self, member: MemberId) -> Slot
        ensures { result ≡ freed_slot member self.now }
    {
        Slot {
            page: self.page,
            filled: self.filled,
            changed: self.changed,
            castout: if self.is_locked_for(member) {
                None
            } else {
                self.castout
            },
            written: self.written,
        }
    }

    /// The page of a changed entry.
    pub fn changed_page(&self) -> Option<PageId>
        ensures { result ≡ changed_page self.now }
    {
        if self.changed { self.page } else { None }
    }
}

impl HoldsPage for Slot {
    ghost page = { page_of };

    ghost may_be_taken = { is_idle_slot };

    fn page(&self) -> Option<PageId> {
        self.page
    }

    fn may_be_taken(&self) -> bool {
        self.is_idle()
    }
}

/// So many slots that hold no entry.
pub fn free_slots(alloc: Global, entries: u32) -> Result<Vec<Slot>, NoMemory>
    ensures { IfOk result (λ slots. slots.items ≡ replicate entries free_slot) }
{
    let mut slots = Vec::new(alloc);
    for _ in 0..entries {
        slots.push(Slot {
            page: None,
            filled: false,
            changed: false,
            castout: None,
            written: false,
        })?;
    }
    Ok(slots)
}

/// Makes all slots free.
pub fn free_all(slots: &mut Vec<Slot>)
    ensures size { length slots.new.items ≡ length slots.old.items }
    ensures free { (s : ℕ) → slot_at slots.new.items s ≡ free_slot }
{
    for at in 0..slots.len() {
        slots[at] = Slot::free();
    }
}
