ghost use Rattle.std.specs.Prelude.{◌≡◌, ◌≤◌, true, OnOk};
ghost use Rattle.member_trans.specs.declared.fate.Owner.TheVariants as owners;
ghost use Rattle.member_marks.specs.State.{MarksState, agents_of, slot_id, with_locks, with_trans};
ghost use Rattle.member_marks.specs.Claims.{
  is_for_agents,
  may_claim,
  mode_held,
  is_claimed,
  lock_place,
  has_page,
  has_page_room,
  answer_to,
  releasing,
  rollback_releasing,
  releasing_page,
  offered,
  offered_held,
  offered_retained,
  offered_memory,
  has_spare,
  entered,
  entry,
  after_enter,
  enter_told,
  may_enter_page,
  PageEntered,
  slot_released,
  rollback_released,
  after_release_of,
  released_told,
  after_release_page,
  page_released_told,
  slot_over,
  rollback_over,
  after_end_of,
};
ghost use Rattle.member_marks.specs.declared.trial.Trial.TheVariants as trial;

use crate::Marks;
use crate::trial::Trial;
use ds_base::{Lrsn, MemberId, NoMemory, PageId};
use ds_model::{Name, Refusal};
use list_structure::CellAnswer;
use lock_manager::{Ask, LockAnswer};
use lock_names::{Interest, Mode};
use member_trans::Owner;

/// Whether agents may claim the name: that of a table space or row.
pub(crate) fn is_for_agents(name: &Name) -> bool
    ensures { result ≡ is_for_agents name.now }
{
    matches!(name, Name::Space(_) | Name::Row(..))
}

impl Marks {
    fn holds_slot(&self, slot: u8, name: &Name) -> Option<Mode>
        ensures { result ≡ mode_held self.now (owners.Slot slot) name.now }
    {
        if slot <= self.agents {
            self.locks.holds(slot, name)
        } else {
            None
        }
    }

    /// The mode in which the owner's transaction holds the name; for slot 0, the member itself.
    pub fn holds(&self, owner: &Owner, name: &Name) -> Option<Mode>
        ensures { result ≡ mode_held self.now owner.now name.now }
    {
        match owner {
            Owner::Slot(slot) => self.holds_slot(*slot, name),
            Owner::Rollback(id) => self.locks.holds_rollback(*id, name),
        }
    }

    /// Whether an owner has a claim on the name.
    pub fn is_claimed(&self, name: &Name) -> bool
        ensures { result ≡ is_claimed self.now name.now }
    {
        self.locks.is_held(name)
    }

    /// Whether the member claims the lock of the page.
    pub fn has_page(&self, page: PageId) -> bool
        ensures { result ≡ has_page self.now page }
    {
        self.holds_slot(0, &Name::Page(page)).is_some()
    }

    /// Whether there is room for one more claim of a page's lock.
    pub fn has_page_room(&self) -> bool
        ensures { result ≡ has_page_room self.now }
    {
        self.locks.has_page_room()
    }

    /// What another member is told that needs the name in this mode.
    pub fn answer_to(&self, name: &Name, mode: Mode) -> CellAnswer
        ensures { result ≡ answer_to self.now name.now mode }
    {
        match self.locks.answer(name, mode) {
            LockAnswer::Clean => CellAnswer::Clean,
            LockAnswer::Conflict { by } => CellAnswer::Conflict {
                by: self.tran(&Owner::Slot(by)),
            },
            LockAnswer::Postponed { member } => CellAnswer::Postponed { member },
        }
    }

    fn releasing_slot(&self, slot: u8) -> Option<(Name, Interest)>
        ensures { result ≡ releasing self.now (owners.Slot slot) }
    {
        if slot <= self.agents {
            self.locks.releasing(slot)
        } else {
            None
        }
    }

    /// The name that the owner's transaction gives up next, with the interest that the member keeps in its entry.
    pub fn releasing(&self, owner: &Owner) -> Option<(Name, Interest)>
        ensures { result ≡ releasing self.now owner.now }
    {
        match owner {
            Owner::Slot(slot) => self.releasing_slot(*slot),
            Owner::Rollback(id) => self.locks.releasing_postponed(*id),
        }
    }

    /// The lock of the page, with the interest that the member keeps in its entry without it, where it claims it.
    pub fn releasing_page(&self, page: PageId) -> Option<(Name, Interest)>
        ensures { result ≡ releasing_page self.now page }
    {
        let name = Name::Page(page);
        if self.has_page(page) {
            Some((name, self.locks.releasing_page(&name)))
        } else {
            None
        }
    }

    /// Whether the slot's transaction may claim the name.
    pub(crate) fn may_claim(&self, slot: u8, name: &Name) -> bool
        ensures { result ≡ may_claim self.now slot name.now }
    {
        0 < slot && slot <= self.agents && self.trans.is_forward(slot) && is_for_agents(name)
    }
}

impl Marks {
    /// Takes the memory for one more claim of an agent.
    pub fn reserve_claim(&mut self) -> Result<(), NoMemory>
        ensures enough { OnOk result (1 ≤ self.new.locks.spare) }
        ensures rest { self.new ≡ with_locks self.old (record self.old.locks { spare = self.new.locks.spare }) }
        ensures more { self.old.locks.spare ≤ self.new.locks.spare }
    {
        self.locks.reserve_claims(1)
    }

    pub(crate) fn offer_held(&mut self, slot: u8, name: &Name, by: u8, event: u64) -> Trial
        ensures told { result ≡ trial.Conflict (slot_id self.old by) }
        ensures after { self.new ≡ offered_held self.old slot name.now by event }
    {
        let told = Trial::Conflict(self.tran(&Owner::Slot(by)));
        let by = self.tran(&Owner::Slot(by));
        self.trans.offer(&Owner::Slot(slot), Refusal::Held { name: *name, by }, event);
        told
    }

    pub(crate) fn offer_retained(
        &mut self,
        slot: u8,
        name: &Name,
        by: MemberId,
        event: u64,
    ) -> Trial
        ensures told { result ≡ trial.Postponed by }
        ensures after { self.new ≡ offered_retained self.old slot name.now by event }
    {
        self.trans.offer(
            &Owner::Slot(slot),
            Refusal::Retained { name: *name, by },
            event,
        );
        Trial::Postponed(by)
    }

    pub(crate) fn offer_memory(&mut self, slot: u8, event: u64) -> Trial
        ensures told { result ≡ trial.NoMemory }
        ensures after { self.new ≡ offered_memory self.old slot event }
    {
        self.trans.offer(&Owner::Slot(slot), Refusal::Memory, event);
        Trial::NoMemory
    }

    // Enters the claim, for which memory was taken.
    fn enter(&mut self, slot: u8, name: &Name, mode: Mode, event: u64) -> Trial
        requires { may_claim self.old slot name.now ≡ true }
        ensures told { result ≡ entry self.old }
        ensures after { self.new ≡ entered self.old slot name.now mode event }
    {
        if self.locks.spare() == 0 {
            return self.offer_memory(slot, event);
        }
        self.locks.give(slot, name, mode);
        Trial::Have
    }

    /// Enters a lock that was granted to the slot's transaction, unless another owner is in the way by now: then that
    /// refusal stands in this event.
    pub fn enter_claim(&mut self, slot: u8, name: &Name, mode: Mode, event: u64) -> Trial
        ensures told { result ≡ enter_told self.old slot name.now mode }
        ensures after { self.new ≡ after_enter self.old slot name.now mode event }
    {
        if !self.may_claim(slot, name) {
            return Trial::NotForward;
        }
        match self.locks.ask(slot, name, mode) {
            Ask::Conflict { by } => self.offer_held(slot, name, by, event),
            Ask::Postponed { member } => self.offer_retained(slot, name, member, event),
            Ask::Have | Ask::Local | Ask::Facility { .. } => self.enter(slot, name, mode, event),
        }
    }

    /// Enters the lock of a page in X, for which there is room or which the member claims already.
    pub fn enter_page(&mut self, page: PageId) -> bool
        ensures told { result ≡ may_enter_page self.old page }
        ensures after { PageEntered result self.old page self.new }
    {
        if !self.has_page_room() && !self.has_page(page) {
            return false;
        }
        self.locks.give(0, &Name::Page(page), Mode::X);
        true
    }

    fn release_slot(&mut self, slot: u8) -> Option<(Name, Interest)>
        ensures told { result ≡ released_told self.old (owners.Slot slot) }
        ensures after { self.new ≡ slot_released self.old slot }
    {
        if slot == 0 || self.agents < slot {
            return None;
        }
        self.trans.note_released(&Owner::Slot(slot));
        self.locks.release(slot)
    }

    fn release_rollback(&mut self, id: Lrsn) -> Option<(Name, Interest)>
        ensures told { result ≡ rollback_releasing self.old id }
        ensures after { self.new ≡ rollback_released self.old id }
    {
        if self.locks.releasing_postponed(id).is_none() {
            return None;
        }
        self.trans.note_released(&Owner::Rollback(id));
        self.locks.release_postponed(id)
    }

    /// Gives up claims of the owner's transaction, up to the first whose name the member then holds no longer. A rollback
    /// for which there is none keeps its claims until its end.
    pub fn release(&mut self, owner: &Owner) -> Option<(Name, Interest)>
        ensures told { result ≡ released_told self.old owner.now }
        ensures after { self.new ≡ after_release_of self.old owner.now }
    {
        match owner {
            Owner::Slot(slot) => self.release_slot(*slot),
            Owner::Rollback(id) => self.release_rollback(*id),
        }
    }

    /// Gives up the lock of the page, where the member claims it.
    pub fn release_page(&mut self, page: PageId) -> Option<Interest>
        ensures told { result ≡ page_released_told self.old page }
        ensures after { self.new ≡ after_release_page self.old page }
    {
        if self.has_page(page) {
            Some(self.locks.release_page(&Name::Page(page)))
        } else {
            None
        }
    }

    fn end_slot(&mut self, slot: u8)
        ensures { self.new ≡ slot_over self.old slot }
    {
        if slot == 0 || self.agents < slot {
            return;
        }
        self.locks.drop_all(slot);
        self.trans.end(&Owner::Slot(slot));
    }

    fn end_rollback(&mut self, id: Lrsn)
        ensures { self.new ≡ rollback_over self.old id }
    {
        self.locks.end_postponed(id);
        self.trans.end(&Owner::Rollback(id));
    }

    /// The slot is free, or the rollback is gone, and so are the claims that were left. A decided transaction is answered.
    pub fn end(&mut self, owner: &Owner)
        ensures { self.new ≡ after_end_of self.old owner.now }
    {
        match owner {
            Owner::Slot(slot) => self.end_slot(*slot),
            Owner::Rollback(id) => self.end_rollback(*id),
        }
    }

    /// This event allows this refusal of the owner's transaction, whose cause held in the event `place`.
    pub fn offer(&mut self, owner: &Owner, refusal: Refusal, place: u64)
        ensures { self.new ≡ offered self.old owner.now refusal place }
    {
        self.trans.offer(owner, refusal, place);
    }
}
