ghost use Rattle.std.specs.Prelude.{◌≡◌, ◌≤◌, ◌+◌, ◌&&◌, length, true, is_ok, IfOk, OnOk};
ghost use Rattle.lock_manager.specs.Managers.{ask_of};
ghost use Rattle.lock_manager.specs.declared.claim.Ask.TheVariants as ask;
ghost use Rattle.member_trans.specs.declared.fate.Owner.TheVariants as owners;
ghost use Rattle.member_trans.specs.Trans.{may_begin, may_refuse, offers};
ghost use Rattle.member_marks.specs.State.{MarksState, agents_of};
ghost use Rattle.member_marks.specs.Claims.{may_claim};
ghost use Rattle.member_marks.specs.Rollbacks.{may_wait, may_postpone, postponed_as, retainer, can_postpone};
ghost use Rattle.member_marks.specs.Frames.{place_told, may_pin, may_unpin};
ghost use Rattle.member_marks.specs.Local.{
  Claim,
  Begin,
  Refuse,
  Abort,
  RefuseForMemory,
  Place,
  Pin,
  Unpin,
  Postpone,
  WaitFor,
  moved,
  Reaches,
  trial_of,
  had_memory,
  home_told,
  entered_at_home,
};

use crate::Marks;
use crate::trial::Trial;
use ds_base::{Lrsn, NoMemory, PageId};
use ds_model::{Name, Refusal};
use lock_manager::Ask;
use lock_names::Mode;
use member_trans::Owner;

// Local moves.
impl Marks {
    /// Tries the lock at home, and enters the claim where the member's own claims cover it.
    pub fn claim(&mut self, slot: u8, name: &Name, mode: Mode) -> Trial
        ensures told { result ≡ trial_of self.old slot name.now mode (had_memory result) }
        ensures marks { self.new ≡ moved (Claim slot name.now mode (had_memory result) self.new.locks.spare) self.old }
        ensures reaches { Reaches self.old self.new }
    {
        self.try_claim(slot, name, mode)
    }

    fn try_claim(&mut self, slot: u8, name: &Name, mode: Mode) -> Trial
        ensures told { result ≡ trial_of self.old slot name.now mode (had_memory result) }
        ensures marks { self.new ≡ moved (Claim slot name.now mode (had_memory result) self.new.locks.spare) self.old }
    {
        if !self.may_claim(slot, name) {
            return Trial::NotForward;
        }
        let event = self.trans.place();
        match self.locks.ask(slot, name, mode) {
            Ask::Have => Trial::Have,
            Ask::Conflict { by } => self.offer_held(slot, name, by, event),
            Ask::Postponed { member } => self.offer_retained(slot, name, member, event),
            Ask::Facility { mode } => Trial::ToObtain(mode),
            Ask::Local => self.enter_at_home(slot, name, mode, event),
        }
    }

    fn enter_at_home(&mut self, slot: u8, name: &Name, mode: Mode, event: u64) -> Trial
        requires { may_claim self.old slot name.now ≡ true }
        ensures told { result ≡ home_told (had_memory result) }
        ensures after { self.new ≡ entered_at_home self.old slot name.now mode event (had_memory result) self.new.locks.spare }
    {
        if self.locks.reserve_claims(1).is_err() {
            return self.offer_memory(slot, event);
        }
        self.locks.give(slot, name, mode);
        Trial::Have
    }

    /// A transaction with this number in the script takes the slot, if it is free. The memory for a rollback of each slot is
    /// taken, so that a transaction that has begun can be postponed.
    pub fn begin(&mut self, slot: u8, number: u32) -> Result<bool, NoMemory>
        ensures told { IfOk result (λ begun. begun ≡ may_begin self.old.trans slot) }
        ensures enough { IfOk result (λ begun. begun ≡ true → (agents_of self.old ≤ self.new.locks.room) × (length self.old.trans.slots ≤ self.new.trans.room + 1)) }
        ensures more { (self.old.locks.room ≤ self.new.locks.room) × (self.old.trans.room ≤ self.new.trans.room) }
        ensures marks { self.new ≡ moved (Begin slot number (is_ok result) self.new.locks.room self.new.trans.room) self.old }
        ensures reaches { Reaches self.old self.new }
    {
        self.set_begun(slot, number)
    }

    fn set_begun(&mut self, slot: u8, number: u32) -> Result<bool, NoMemory>
        ensures told { IfOk result (λ begun. begun ≡ may_begin self.old.trans slot) }
        ensures enough { IfOk result (λ begun. begun ≡ true → (agents_of self.old ≤ self.new.locks.room) × (length self.old.trans.slots ≤ self.new.trans.room + 1)) }
        ensures more { (self.old.locks.room ≤ self.new.locks.room) × (self.old.trans.room ≤ self.new.trans.room) }
        ensures marks { self.new ≡ moved (Begin slot number (is_ok result) self.new.locks.room self.new.trans.room) self.old }
    {
        if !self.trans.may_begin(slot) {
            return Ok(false);
        }
        self.locks.reserve_rollbacks(self.agents as u32)?;
        self.trans.begin(slot, number)
    }

    /// The refusal that this event allows is that of the slot's transaction, if it goes forward.
    pub fn refuse(&mut self, slot: u8) -> bool
        ensures told { result ≡ (may_refuse self.old.trans slot && offers self.old.trans.offer (owners.Slot slot)) }
        ensures marks { self.new ≡ moved (Refuse slot) self.old }
        ensures reaches { Reaches self.old self.new }
    {
        self.set_refused(slot)
    }

    fn set_refused(&mut self, slot: u8) -> bool
        ensures told { result ≡ (may_refuse self.old.trans slot && offers self.old.trans.offer (owners.Slot slot)) }
        ensures marks { self.new ≡ moved (Refuse slot) self.old }
    {
        self.trans.refuse(slot)
    }

    /// The slot's transaction is rolled back as it asked for, if it goes forward.
    pub fn abort(&mut self, slot: u8) -> bool
        ensures told { result ≡ may_refuse self.old.trans slot }
        ensures marks { self.new ≡ moved (Abort slot) self.old }
        ensures reaches { Reaches self.old self.new }
    {
        self.set_aborted(slot)
    }

    fn set_aborted(&mut self, slot: u8) -> bool
        ensures told { result ≡ may_refuse self.old.trans slot }
        ensures marks { self.new ≡ moved (Abort slot) self.old }
    {
        let event = self.trans.place();
        self.trans.refuse_for(slot, Refusal::Aborted, event)
    }

    /// The slot's transaction is refused for want of memory, if it goes forward.
    pub fn refuse_for_memory(&mut self, slot: u8) -> bool
        ensures told { result ≡ may_refuse self.old.trans slot }
        ensures marks { self.new ≡ moved (RefuseForMemory slot) self.old }
        ensures reaches { Reaches self.old self.new }
    {
        self.set_starved(slot)
    }

    fn set_starved(&mut self, slot: u8) -> bool
        ensures told { result ≡ may_refuse self.old.trans slot }
        ensures marks { self.new ≡ moved (RefuseForMemory slot) self.old }
    {
        let event = self.trans.place();
        self.trans.refuse_for(slot, Refusal::Memory, event)
    }

    /// Places a page in a free frame, where no frame holds it.
    pub fn place(&mut self, page: PageId) -> Option<u16>
        ensures told { result ≡ place_told self.old page }
        ensures marks { self.new ≡ moved (Place page) self.old }
        ensures reaches { Reaches self.old self.new }
    {
        self.set_placed(page)
    }

    fn set_placed(&mut self, page: PageId) -> Option<u16>
        ensures told { result ≡ place_told self.old page }
        ensures marks { self.new ≡ moved (Place page) self.old }
    {
        if self.heads.find(page).is_some() {
            return None;
        }
        match self.heads.free() {
            Some(at) if self.heads.frame(at).pins == 0 => {
                self.heads.place(at, page);
                Some(at)
            }
            _ => None,
        }
    }

    /// Keeps the page in the frame, until as many calls of `unpin`.
    pub fn pin(&mut self, at: u16) -> bool
        ensures told { result ≡ may_pin self.old.heads at }
        ensures marks { self.new ≡ moved (Pin at) self.old }
        ensures reaches { Reaches self.old self.new }
    {
        self.set_pinned(at)
    }

    fn set_pinned(&mut self, at: u16) -> bool
        ensures told { result ≡ may_pin self.old.heads at }
        ensures marks { self.new ≡ moved (Pin at) self.old }
    {
        if !self.is_placed(at) || self.frame(at).pins >= u32::MAX {
            return false;
        }
        self.heads.pin(at);
        true
    }

    /// Takes one pin back.
    pub fn unpin(&mut self, at: u16) -> bool
        ensures told { result ≡ may_unpin self.old.heads at }
        ensures marks { self.new ≡ moved (Unpin at) self.old }
        ensures reaches { Reaches self.old self.new }
    {
        self.set_unpinned(at)
    }

    fn set_unpinned(&mut self, at: u16) -> bool
        ensures told { result ≡ may_unpin self.old.heads at }
        ensures marks { self.new ≡ moved (Unpin at) self.old }
    {
        if self.frame(at).pins == 0 {
            return false;
        }
        self.heads.unpin(at);
        true
    }

    /// The slot's rollback is postponed, where this event says that a failed member retains the page of its newest change:
    /// the name of the rollback, which waits for that member.
    pub fn postpone(&mut self, slot: u8) -> Option<Lrsn>
        ensures told { result ≡ postponed_as self.old slot }
        ensures marks { self.new ≡ moved (Postpone slot) self.old }
        ensures reaches { Reaches self.old self.new }
    {
        self.set_postponed(slot)
    }

    fn set_postponed(&mut self, slot: u8) -> Option<Lrsn>
        ensures told { result ≡ postponed_as self.old slot }
        ensures marks { self.new ≡ moved (Postpone slot) self.old }
    {
        if !self.can_postpone(slot) {
            return None;
        }
        let by = self.retainer(&Owner::Slot(slot))?;
        let id = self.first(&Owner::Slot(slot));
        self.locks.postpone(slot, id, by);
        self.trans.postpone(slot);
        self.trans.drop_offer();
        Some(id)
    }

    /// The rollback waits on, where this event says that a failed member retains the page of its newest change: for that
    /// member now.
    pub fn wait_for(&mut self, id: Lrsn) -> bool
        ensures told { result ≡ may_wait self.old id }
        ensures marks { self.new ≡ moved (WaitFor id) self.old }
        ensures reaches { Reaches self.old self.new }
    {
        self.set_waiting(id)
    }

    fn set_waiting(&mut self, id: Lrsn) -> bool
        ensures told { result ≡ may_wait self.old id }
        ensures marks { self.new ≡ moved (WaitFor id) self.old }
    {
        if !self.locks.is_postponed(id) {
            return false;
        }
        let Some(by) = self.retainer(&Owner::Rollback(id)) else {
            return false;
        };
        self.locks.wait_for(id, by);
        self.trans.drop_offer();
        true
    }
}
