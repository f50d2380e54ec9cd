ghost use Rattle.std.specs.Prelude.{◌≡◌, ◌<◌, ◌≤◌, ◌+◌, true, None, Some, length, IfOk, IfSome, MatchOption, OnOk, OnErr, replicate, ◌&&◌, is_some, vec_len, vec_capacity};
ghost use Rattle.member_trans.specs.declared.fate.Owner.TheVariants as owners;
ghost use Rattle.member_trans.specs.Trans.{
  TranState,
  TransState,
  free_tran,
  no_trans,
  tran_at,
  tran_of,
  place_in,
  place_of,
  has_rollback,
  with_tran,
  with_tran_of,
  with_set_of,
  with_room_for,
  without_offer,
  newest_of,
  is_over_at,
  same_owner,
  offers,
  offered_page,
  retained_by,
  is_page,
  may_begin,
  after_begin_with,
  may_refuse,
  refused_for,
  after_refuse,
  after_offer,
  after_draw,
  after_decide,
  after_end,
  slot_ended,
  rollback_ended,
  after_event,
  after_reset,
  all_decided,
  changed,
  with_undone,
  with_released,
  with_room,
  is_forward,
  has_set,
  is_new,
  has_room_for,
  can_postpone,
  may_postpone,
  with_postponed,
  after_postpone,
  postponed_as,
  may_adopt,
  with_adopted,
  after_adopt,
  rollback_id,
};

use crate::fate::{Change, Offer, Owner, Refused, Stage};
use crate::list::SlotList;
use crate::slot::{Slot, no_number};
use ds_base::{Lrsn, MemberId, NoMemory, PageId};
use ds_model::{Name, Refusal, RowChange};
use std::alloc::Global;
use std::marker::Model;
use std::mem;

/// The transactions of a member by their slots, its postponed rollbacks, and what this event has made of them.
///
/// Slot 0 is the member's own and has none. A slot past the last is like a free one, and so is a rollback that isn't there.
#[derive(Drop)]
pub struct Trans {
    slots: Vec<Slot>,
    rollbacks: Vec<Slot>,
    room: usize,
    commits: SlotList,
    decided: SlotList,
    offer: Option<Offer>,
    refused: Option<Refused>,
    answered: Option<u32>,
    place: u64,
    alloc: Global,
}

impl Model for Trans {
    ghost use Rattle.std.specs.Prelude.{◌+◌, ◌≤◌, ◌<◌, vec_len, vec_capacity, length};
    ghost use Rattle.member_trans.specs.Trans.{TransState};

    ghost Value = { TransState };

    ghost view = { λ t. record { slots = t.slots.items; rollbacks = t.rollbacks.items; room = t.room; commits = t.commits; decided = t.decided; offer = t.offer; refused = t.refused; answered = t.answered; place = t.place } };

    ghost invariant = { λ t. vec_len t.rollbacks + t.room ≤ vec_capacity t.rollbacks };
}

fn free_slots(alloc: Global, count: usize) -> Result<Vec<Slot>, NoMemory>
    ensures { IfOk result (λ slots. slots.items ≡ replicate count free_tran) }
{
    let mut slots = Vec::new(alloc);
    for _made in 0..count {
        slots.push(Slot::new(alloc))?;
    }
    Ok(slots)
}

// The place of the rollback of this first number among them.
#[tactic(auto, using(crate::proofs::Places::place_step))]
fn place_of(rollbacks: &[Slot], id: Lrsn) -> Option<usize>
    ensures place { result ≡ place_in rollbacks.now 0 id }
    ensures there { IfSome result (λ k. k < length rollbacks.now) }
{
    for (at, rollback) in rollbacks.iter().enumerate() {
        if rollback.first.number() == id.number() {
            return Some(at);
        }
    }
    None
}

fn is_slot(owner: &Owner, slot: u8) -> bool
    ensures { result ≡ same_owner (owners.Slot slot) owner.now }
{
    match owner {
        Owner::Slot(it) => slot == *it,
        Owner::Rollback(_) => false,
    }
}

fn is_rollback(owner: &Owner, id: Lrsn) -> bool
    ensures { result ≡ same_owner (owners.Rollback id) owner.now }
{
    match owner {
        Owner::Slot(_) => false,
        Owner::Rollback(it) => id.number() == it.number(),
    }
}

fn is_same_owner(a: &Owner, b: &Owner) -> bool
    ensures { result ≡ same_owner a.now b.now }
{
    match a {
        Owner::Slot(x) => is_slot(b, *x),
        Owner::Rollback(x) => is_rollback(b, *x),
    }
}

fn is_page(name: &Name, page: PageId) -> bool
    ensures { result ≡ is_page name.now page }
{
    match name {
        Name::Page(it) => it.set == page.set && it.number == page.number,
        _ => false,
    }
}

// The failed member that holds the lock of the page, where that is what the refusal says.
fn retained_by(refusal: &Refusal, page: PageId) -> Option<MemberId>
    ensures { result ≡ retained_by refusal.now page }
{
    match refusal {
        Refusal::Retained { name, by } if is_page(name, page) => Some(*by),
        _ => None,
    }
}

impl Trans {
    /// Free slots, 0 to `agents`, and no rollbacks.
    pub fn new(alloc: Global, agents: u8) -> Result<Trans, NoMemory>
        ensures { IfOk result (λ trans. trans ≡ no_trans agents) }
    {
        Ok(Trans {
            slots: free_slots(alloc, agents as usize + 1)?,
            rollbacks: Vec::with_capacity(alloc, agents as usize)?,
            room: agents as usize,
            commits: SlotList::new(),
            decided: SlotList::new(),
            offer: None,
            refused: None,
            answered: None,
            place: 0,
            alloc,
        })
    }

    fn place_of(&self, id: Lrsn) -> Option<usize>
        ensures place { result ≡ place_of self.now id }
        ensures there { IfSome result (λ k. k < length self.now.rollbacks) }
    {
        place_of(self.rollbacks.as_slice(), id)
    }

    fn find(&self, owner: &Owner) -> Option<&Slot>
        ensures { MatchOption result (tran_of self.now owner.now ≡ free_tran) (λ it. tran_of self.now owner.now ≡ it.now) }
    {
        match owner {
            Owner::Slot(slot) => self.slots.get(*slot as usize),
            Owner::Rollback(id) => self.rollbacks.get(self.place_of(*id)?),
        }
    }

    pub fn stage(&self, owner: &Owner) -> Stage
        ensures { result ≡ (tran_of self.now owner.now).stage }
    {
        match self.find(owner) {
            Some(it) => it.stage,
            None => Stage::Free,
        }
    }

    fn slot_stage(&self, slot: u8) -> Stage
        ensures { result ≡ (tran_at self.now slot).stage }
    {
        match self.slots.get(slot as usize) {
            Some(it) => it.stage,
            None => Stage::Free,
        }
    }

    pub fn is_forward(&self, slot: u8) -> bool
        ensures { result ≡ is_forward (tran_at self.now slot).stage }
    {
        matches!(self.slot_stage(slot), Stage::Forward)
    }

    /// The transaction's number in the script, and 0 where there is none, as for a rollback that a restart left.
    pub fn number(&self, owner: &Owner) -> u32
        ensures { result ≡ (tran_of self.now owner.now).number }
    {
        match self.find(owner) {
            Some(it) => it.number,
            None => 0,
        }
    }

    fn slot_number(&self, slot: u8) -> u32
        ensures { result ≡ (tran_at self.now slot).number }
    {
        match self.slots.get(slot as usize) {
            Some(it) => it.number,
            None => 0,
        }
    }

    /// The number of the transaction's first record in the log, 0 before there is one.
    pub fn first(&self, owner: &Owner) -> Lrsn
        ensures { result ≡ (tran_of self.now owner.now).first }
    {
        match self.find(owner) {
            Some(it) => it.first,
            None => no_number(),
        }
    }

    /// Whether pages of the page set were changed for the transaction.
    #[tactic(auto, using(crate::proofs::Places::no_set))]
    pub fn has_set(&self, owner: &Owner, set: u16) -> bool
        ensures { result ≡ has_set self.now owner.now set }
    {
        match self.find(owner) {
            Some(it) => it.has_set(set),
            None => false,
        }
    }

    /// Whether the memory for one more row change was taken.
    pub fn has_room(&self, slot: u8) -> bool
        ensures { result ≡ (tran_at self.now slot).has_room }
    {
        match self.slots.get(slot as usize) {
            Some(it) => it.has_room(),
            None => false,
        }
    }

    /// The newest row change that stands.
    pub fn newest(&self, owner: &Owner) -> Option<Change>
        ensures { result ≡ newest_of (tran_of self.now owner.now) }
    {
        match self.find(owner) {
            Some(it) => it.newest(),
            None => None,
        }
    }

    /// How many row changes stand.
    pub fn count(&self, owner: &Owner) -> usize
        ensures { result ≡ length (tran_of self.now owner.now).changes }
    {
        match self.find(owner) {
            Some(it) => it.changes.len(),
            None => 0,
        }
    }

    /// Whether changes of the transaction were taken back.
    pub fn has_undone(&self, owner: &Owner) -> bool
        ensures { result ≡ (tran_of self.now owner.now).undone }
    {
        match self.find(owner) {
            Some(it) => it.undone,
            None => false,
        }
    }

    /// Whether the transaction has begun to give up its locks.
    pub fn has_released(&self, owner: &Owner) -> bool
        ensures { result ≡ (tran_of self.now owner.now).released }
    {
        match self.find(owner) {
            Some(it) => it.released,
            None => false,
        }
    }

    /// Whether the transaction's fate is settled, with the log stable up to this number: it is decided, or all of it is
    /// taken back.
    pub fn is_over(&self, owner: &Owner, stable: Lrsn) -> bool
        ensures { result ≡ is_over_at (tran_of self.now owner.now) stable }
    {
        match self.find(owner) {
            Some(it) => match it.stage {
                Stage::Decided => true,
                Stage::Undoing => { it.changes.is_empty() && it.ended.number() <= stable.number() }
                _ => false,
            },
            None => false,
        }
    }

    /// The slots that this event has decided, in the log's order.
    pub fn decided(&self) -> &[u8]
        ensures { result.now ≡ self.now.decided }
    {
        self.decided.as_slice()
    }

    /// Whether this event allows a refusal of the owner's transaction.
    pub fn is_offered(&self, owner: &Owner) -> bool
        ensures { result ≡ offers self.now.offer owner.now }
    {
        match &self.offer {
            Some(offer) => is_same_owner(&offer.owner, owner),
            None => false,
        }
    }

    /// The failed member that holds the lock of the page, where this event allows the owner's transaction that refusal.
    pub fn offered_page(&self, owner: &Owner, page: PageId) -> Option<MemberId>
        ensures { result ≡ offered_page self.now.offer owner.now page }
    {
        match &self.offer {
            Some(offer) if is_same_owner(&offer.owner, owner) => retained_by(&offer.refusal, page),
            _ => None,
        }
    }

    /// Whether there is a postponed rollback of this first number.
    pub fn has_rollback(&self, id: Lrsn) -> bool
        ensures { result ≡ has_rollback self.now id }
    {
        self.place_of(id).is_some()
    }

    /// The first number of the rollback at this place in the order in which they were postponed.
    pub fn rollback_id(&self, at: usize) -> Option<Lrsn>
        ensures { result ≡ rollback_id self.now at }
    {
        match self.rollbacks.get(at) {
            Some(it) => Some(it.first),
            None => None,
        }
    }

    /// For how many more rollbacks the memory was taken.
    pub fn room(&self) -> usize
        ensures { result ≡ self.now.room }
    {
        self.room
    }
}

impl Trans {
    /// Whether a transaction may take the slot: it is free, and none of the member's own.
    pub fn may_begin(&self, slot: u8) -> bool
        ensures { result ≡ may_begin self.now slot }
    {
        0 < slot
            && (slot as usize) < self.slots.len()
            && matches!(self.slot_stage(slot), Stage::Free)
    }

    // Takes the memory for so many rollbacks.
    fn reserve_rollbacks(&mut self, count: usize) -> Result<(), NoMemory>
        ensures enough { OnOk result (count ≤ self.new.room) }
        ensures ok { OnOk result (self.new ≡ with_room_for self.old self.new.room) }
        ensures more { self.old.room ≤ self.new.room }
        ensures err { OnErr result (self.new ≡ self.old) }
    {
        if self.room < count {
            self.rollbacks.reserve(count)?;
            self.room = count;
        }
        Ok(())
    }

    /// Takes the memory for one rollback.
    pub fn reserve_rollback(&mut self) -> Result<(), NoMemory>
        ensures enough { OnOk result (1 ≤ self.new.room) }
        ensures ok { OnOk result (self.new ≡ with_room_for self.old self.new.room) }
        ensures more { self.old.room ≤ self.new.room }
        ensures err { OnErr result (self.new ≡ self.old) }
    {
        self.reserve_rollbacks(1)
    }

    /// A transaction with this number in the script takes the slot, if it is free. The memory for a rollback of each slot is
    /// taken, so that a transaction that has begun can be postponed.
    pub fn begin(&mut self, slot: u8, number: u32) -> Result<bool, NoMemory>
        ensures begun { IfOk result (λ begun. begun ≡ may_begin self.old slot) }
        ensures after { OnOk result (self.new ≡ after_begin_with self.old slot number self.new.room) }
        ensures enough { IfOk result (λ begun. begun ≡ true → length self.old.slots ≤ self.new.room + 1) }
        ensures more { self.old.room ≤ self.new.room }
        ensures err { OnErr result (self.new ≡ self.old) }
    {
        if !self.may_begin(slot) {
            return Ok(false);
        }
        let agents = self.slots.len() - 1;
        self.reserve_rollbacks(agents)?;
        if let Some(it) = self.slots.get_mut(slot as usize) {
            it.begin(number);
        }
        Ok(true)
    }

    fn may_refuse(&self, slot: u8) -> bool
        ensures { result ≡ may_refuse self.now slot }
    {
        self.is_forward(slot) && self.refused.is_none()
    }

    fn undo(&mut self, slot: u8, refusal: Refusal, place: u64)
        requires { may_refuse self.old slot ≡ true }
        ensures { self.new ≡ refused_for self.old slot refusal place }
    {
        let number = self.slot_number(slot);
        if let Some(it) = self.slots.get_mut(slot as usize) {
            it.undo();
        }
        self.refused = Some(Refused {
            number,
            refusal,
            place,
        });
    }

    /// Refuses the transaction, if it goes forward and no other was refused in this event.
    pub fn refuse_for(&mut self, slot: u8, refusal: Refusal, place: u64) -> bool
        ensures refused { result ≡ may_refuse self.old slot }
        ensures after { self.new ≡ refused_for self.old slot refusal place }
    {
        if !self.may_refuse(slot) {
            return false;
        }
        self.undo(slot, refusal, place);
        true
    }

    /// Makes the refusal that this event allows for the slot true, as `refuse_for` does.
    pub fn refuse(&mut self, slot: u8) -> bool
        ensures refused { result ≡ (may_refuse self.old slot && offers self.old.offer (owners.Slot slot)) }
        ensures after { self.new ≡ after_refuse self.old slot }
    {
        if !self.may_refuse(slot) || !self.is_offered(&Owner::Slot(slot)) {
            return false;
        }
        let Some(offer) = mem::replace(&mut self.offer, None) else {
            return false;
        };
        self.undo(slot, offer.refusal, offer.place);
        true
    }

    /// This event allows this refusal of the owner's transaction.
    pub fn offer(&mut self, owner: &Owner, refusal: Refusal, place: u64)
        ensures { self.new ≡ after_offer self.old owner.now refusal place }
    {
        self.offer = Some(Offer {
            owner: *owner,
            refusal,
            place,
        });
    }

    /// The refusal that this event allowed is spent.
    pub fn drop_offer(&mut self)
        ensures { self.new ≡ without_offer self.old }
    {
        self.offer = None;
    }

    /// Takes the memory for one more row change of the slot's transaction.
    pub fn reserve_change(&mut self, slot: u8) -> Result<(), NoMemory>
        ensures ok { OnOk result (self.new ≡ with_tran self.old slot (with_room (tran_at self.old slot))) }
        ensures err { OnErr result (self.new ≡ self.old) }
    {
        if let Some(it) = self.slots.get_mut(slot as usize) {
            it.reserve()?;
        }
        Ok(())
    }

    /// Notes a row change, for which memory was taken.
    pub fn note_change(&mut self, slot: u8, lrsn: Lrsn, change: &RowChange)
        ensures { self.new ≡ with_tran self.old slot (changed (tran_at self.old slot) lrsn change.now) }
    {
        if let Some(it) = self.slots.get_mut(slot as usize) {
            it.note_change(lrsn, change);
        }
    }

    /// Notes that pages of the page set were changed for the transaction.
    pub fn note_set(&mut self, owner: &Owner, set: u16)
        ensures { self.new ≡ with_set_of self.old owner.now set }
    {
        match owner {
            Owner::Slot(slot) => {
                if let Some(it) = self.slots.get_mut(*slot as usize) {
                    it.note_set(set);
                }
            }
            Owner::Rollback(id) => {
                if let Some(at) = self.place_of(*id) {
                    self.rollbacks[at].note_set(set);
                }
            }
        }
    }

    /// The newest change was taken back, by a record of this number; behind the last one stands the Ended record.
    pub fn note_undone(&mut self, owner: &Owner, lrsn: Lrsn)
        ensures { self.new ≡ with_tran_of self.old owner.now (with_undone (tran_of self.old owner.now) lrsn) }
    {
        match owner {
            Owner::Slot(slot) => {
                if let Some(it) = self.slots.get_mut(*slot as usize) {
                    it.note_undone(lrsn);
                }
            }
            Owner::Rollback(id) => {
                if let Some(at) = self.place_of(*id) {
                    self.rollbacks[at].note_undone(lrsn);
                }
            }
        }
    }

    /// The transaction has given up a lock.
    pub fn note_released(&mut self, owner: &Owner)
        ensures { self.new ≡ with_tran_of self.old owner.now (with_released (tran_of self.old owner.now)) }
    {
        match owner {
            Owner::Slot(slot) => {
                if let Some(it) = self.slots.get_mut(*slot as usize) {
                    it.note_released();
                }
            }
            Owner::Rollback(id) => {
                if let Some(at) = self.place_of(*id) {
                    self.rollbacks[at].note_released();
                }
            }
        }
    }

    /// The Commit record of a transaction that goes forward was put.
    pub fn draw_commit(&mut self, slot: u8)
        ensures { self.new ≡ after_draw self.old slot }
    {
        if self.is_forward(slot) {
            if let Some(it) = self.slots.get_mut(slot as usize) {
                it.draw();
            }
            self.commits.push(slot);
        }
    }

    /// The pending records stand in the log: the commits among them are decided.
    pub fn decide_all(&mut self)
        ensures { self.new ≡ after_decide self.old }
    {
        let commits = mem::replace(&mut self.commits, SlotList::new());
        decide_each(&mut self.slots, commits.as_slice());
        self.decided = commits;
    }

    fn end_slot(&mut self, slot: u8)
        ensures { self.new ≡ slot_ended self.old slot }
    {
        if matches!(self.slot_stage(slot), Stage::Decided) {
            self.answered = Some(self.slot_number(slot));
        }
        if let Some(it) = self.slots.get_mut(slot as usize) {
            it.clear();
        }
    }

    fn end_rollback(&mut self, at: usize)
        requires { at < length self.old.rollbacks }
        ensures { self.new ≡ rollback_ended self.old (Some at) }
    {
        self.rollbacks.remove(at);
        self.room += 1;
    }

    /// The slot is free, or the rollback is gone. A decided transaction is answered.
    pub fn end(&mut self, owner: &Owner)
        ensures { self.new ≡ after_end self.old owner.now }
    {
        match owner {
            Owner::Slot(slot) => self.end_slot(*slot),
            Owner::Rollback(id) => {
                if let Some(at) = self.place_of(*id) {
                    self.end_rollback(at);
                }
            }
        }
    }

    /// A new event begins, at this place of the journal.
    pub fn begin_event(&mut self, place: u64)
        ensures { self.new ≡ after_event self.old place }
    {
        self.decided = SlotList::new();
        self.offer = None;
        self.refused = None;
        self.answered = None;
        self.place = place;
    }

    /// The place of this event in the journal.
    pub fn place(&self) -> u64
        ensures { result ≡ self.now.place }
    {
        self.place
    }

    /// The transaction that this event has refused. It is told once.
    pub fn take_refused(&mut self) -> Option<Refused>
        ensures told { result ≡ self.old.refused }
        ensures after { self.new ≡ record self.old { refused = None } }
    {
        mem::replace(&mut self.refused, None)
    }

    /// The number of the decided transaction that has come to its end in this event. It is told once.
    pub fn take_answered(&mut self) -> Option<u32>
        ensures told { result ≡ self.old.answered }
        ensures after { self.new ≡ record self.old { answered = None } }
    {
        mem::replace(&mut self.answered, None)
    }
}

impl Trans {
    /// Whether this can be the first number of a rollback, and none has it yet.
    pub fn is_new(&self, id: Lrsn) -> bool
        ensures { result ≡ is_new self.now id }
    {
        id.number() != 0 && !self.has_rollback(id)
    }

    fn has_room_for(&self, id: Lrsn) -> bool
        ensures { result ≡ has_room_for self.now id }
    {
        self.is_new(id) && self.room > 0
    }

    fn can_postpone(&self, it: &Slot) -> bool
        ensures { result ≡ can_postpone self.now it.now }
    {
        matches!(it.stage, Stage::Undoing) && !it.changes.is_empty() && self.has_room_for(it.first)
    }

    /// Whether the slot's transaction is undoing, a change of it stands, and there is room for its rollback.
    pub fn may_postpone(&self, slot: u8) -> bool
        ensures { result ≡ may_postpone self.now slot }
    {
        match self.slots.get(slot as usize) {
            Some(it) => self.can_postpone(it),
            None => false,
        }
    }

    fn move_out(&mut self, slot: u8)
        requires { may_postpone self.old slot ≡ true }
        ensures { self.new ≡ with_postponed self.old slot (tran_at self.old slot) }
    {
        let left = Slot::left_behind(self.alloc, self.slot_number(slot));
        if let Some(it) = self.slots.get_mut(slot as usize) {
            let moved = mem::replace(it, left);
            self.rollbacks.push_reserved(moved);
            self.room -= 1;
        }
    }

    /// Makes the transaction of the slot a postponed rollback, which is the last then: its first number. The slot keeps the
    /// transaction's number until it is ended. Takes no memory.
    pub fn postpone(&mut self, slot: u8) -> Option<Lrsn>
        ensures told { result ≡ postponed_as self.old slot }
        ensures after { self.new ≡ after_postpone self.old slot }
    {
        if !self.may_postpone(slot) {
            return None;
        }
        let id = self.first(&Owner::Slot(slot));
        self.move_out(slot);
        Some(id)
    }

    /// Whether a rollback with these changes may be added by this first number.
    pub fn may_adopt(&self, id: Lrsn, changes: &[Change]) -> bool
        ensures { result ≡ may_adopt self.now id changes.now }
    {
        !changes.is_empty() && self.has_room_for(id)
    }

    /// Adds a rollback that a restart left, by its first number, with the changes that stand, the oldest first, and whether
    /// others were taken back. Takes no memory.
    pub fn adopt(&mut self, id: Lrsn, changes: Vec<Change>, has_undone: bool) -> bool
        ensures told { result ≡ may_adopt self.old id changes.items }
        ensures after { self.new ≡ after_adopt self.old id changes.items has_undone }
    {
        if !self.may_adopt(id, changes.as_slice()) {
            return false;
        }
        let it = Slot::left_open(self.alloc, id, changes, has_undone);
        self.rollbacks.push_reserved(it);
        self.room -= 1;
        true
    }

    /// As at the start, with the room that there is. Takes no memory.
    pub fn reset(&mut self)
        ensures { self.new ≡ after_reset self.old }
    {
        clear_slots(self.alloc, &mut self.slots);
        self.room += self.rollbacks.len();
        self.rollbacks.clear();
        self.commits = SlotList::new();
        self.decided = SlotList::new();
        self.offer = None;
        self.refused = None;
        self.answered = None;
        self.place = 0;
    }
}

fn clear_slots(alloc: Global, slots: &mut Vec<Slot>)
    ensures { slots.new.items ≡ replicate (length slots.old.items) free_tran }
{
    let count = slots.len();
    slots.clear();
    for _ in 0..count {
        slots.push_reserved(Slot::new(alloc));
    }
}

#[tactic(auto, using(crate::proofs::Deciding::decided_step))]
fn decide_each(slots: &mut Vec<Slot>, commits: &[u8])
    ensures { slots.new.items ≡ all_decided slots.old.items commits.now }
{
    for &slot in commits {
        if let Some(it) = slots.get_mut(slot as usize) {
            it.decide();
        }
    }
}
