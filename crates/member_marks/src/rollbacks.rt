ghost use Rattle.std.specs.Prelude.{◌≡◌, ◌≤◌, ◌*◌, ◌++◌, length, map, true, nat_lt, IfOk, OnOk, OnErr};
ghost use Rattle.lock_manager.specs.Managers.{Book};
ghost use Rattle.member_marks.specs.State.{MarksState, agents_of, with_locks};
ghost use Rattle.member_marks.specs.Rollbacks.{
  retainer,
  can_postpone,
  postponed_at,
  row_of,
  row_changed,
  spots_of,
  spot_claimed,
  claimed,
  claims_adopted,
  may_adopt,
  adopted_in,
  after_adopt,
  with_room_of,
};

use crate::Marks;
use crate::kept::{KeptNames, Spot};
use ds_base::{Key, Lrsn, MemberId, NoMemory, TableId};
use ds_model::{Name, RowChange};
use lock_manager::LockManager;
use lock_names::Mode;
use member_trans::{Change, Owner, Stage};
use std::alloc::Global;

/// The slot that claims for a rollback that a restart left.
const LENDER: u8 = 1;

/// The most rows for which a call takes memory.
const MOST: usize = 1 << 30;

fn put_changed(spots: &mut Vec<Spot>, changes: &[Change]) -> Result<(), NoMemory>
    ensures { OnOk result (spots.new.items ≡ spots.old.items ++ map row_of changes.now) }
{
    for it in changes {
        spots.push((it.change.table, it.change.key))?;
    }
    Ok(())
}

fn put_undone(spots: &mut Vec<Spot>, undone: &[RowChange]) -> Result<(), NoMemory>
    ensures { OnOk result (spots.new.items ≡ spots.old.items ++ map row_changed undone.now) }
{
    for change in undone {
        spots.push((change.table, change.key))?;
    }
    Ok(())
}

// The rows of the changes that stand, the newest first, and of those that were taken back.
fn spots_of(alloc: Global, changes: &[Change], undone: &[RowChange]) -> Result<Vec<Spot>, NoMemory>
    ensures { IfOk result (λ spots. spots.items ≡ spots_of changes.now undone.now) }
{
    let mut spots = Vec::new(alloc);
    put_changed(&mut spots, changes)?;
    spots.reverse();
    put_undone(&mut spots, undone)?;
    Ok(spots)
}

fn claim_spot(locks: &mut LockManager, table: TableId, key: Key)
    requires agents { 1 ≤ locks.old.agents }
    requires spare { 2 ≤ locks.old.spare }
    ensures { locks.new ≡ spot_claimed locks.old (table, key) }
{
    locks.give(LENDER, &Name::Space(table), Mode::IX);
    locks.give(LENDER, &Name::Row(table, key), Mode::X);
}

// Claims the rows and their table spaces, for which there is room.
#[tactic(auto, using(crate::proofs::Spots::claimed_step))]
fn claim_spots(locks: &mut LockManager, spots: &[Spot])
    requires agents { 1 ≤ locks.old.agents }
    requires spare { 2 * length spots.now ≤ locks.old.spare }
    ensures claimed { locks.new ≡ claimed locks.old spots.now }
    ensures same { locks.new ≡ record locks.old { holders = locks.new.holders; spare = locks.new.spare } }
{
    for spot in spots {
        claim_spot(locks, spot.0, spot.1);
    }
}

impl Marks {
    // The failed member that retains the page which the owner must change next to take its transaction back.
    pub(crate) fn retainer(&self, owner: &Owner) -> Option<MemberId>
        ensures { result ≡ retainer self.now owner.now }
    {
        let page = self.undo_page(owner)?;
        self.trans.offered_page(owner, page)
    }

    pub(crate) fn can_postpone(&self, slot: u8) -> bool
        ensures { result ≡ can_postpone self.now slot }
    {
        if slot == 0 || self.agents < slot || !self.trans.may_postpone(slot) {
            return false;
        }
        self.locks.room() > 0 && !self.locks.is_postponed(self.first(&Owner::Slot(slot)))
    }

    /// The rollback at this place in the order in which they were postponed, and the failed member that it waits for.
    pub fn postponed(&self, at: u32) -> Option<(Lrsn, MemberId)>
        ensures { result ≡ postponed_at self.now at }
    {
        let id = self.trans.rollback_id(at as usize)?;
        let by = self.locks.waited_for(id)?;
        Some((id, by))
    }

    fn may_adopt(&self, id: Lrsn, changes: &[Change]) -> bool
        ensures { result ≡ may_adopt self.now id changes.now }
    {
        let is_free = LENDER <= self.agents
            && matches!(self.stage(&Owner::Slot(LENDER)), Stage::Free);
        is_free && !self.locks.is_postponed(id) && !changes.is_empty() && self.trans.is_new(id)
    }

    // Takes the memory for a rollback with claims on so many rows.
    fn reserve_rollback(&mut self, rows: usize) -> Result<(), NoMemory>
        ensures claims { OnOk result (2 * rows ≤ self.new.locks.spare) }
        ensures enough { OnOk result ((1 ≤ self.new.locks.room) × (1 ≤ self.new.trans.room)) }
        ensures rest { self.new ≡ with_room_of self.old self.new }
        ensures more { (self.old.locks.room ≤ self.new.locks.room) × (self.old.trans.room ≤ self.new.trans.room) }
    {
        if rows > MOST {
            return Err(NoMemory);
        }
        self.locks.reserve_claims(2 * rows as u32)?;
        self.locks.reserve_rollbacks(1)?;
        self.trans.reserve_rollback()
    }

    // Claims the rows and their table spaces for a rollback, for which there is room.
    fn claim_rollback(&mut self, id: Lrsn, by: MemberId, spots: &[Spot])
        requires agents { 1 ≤ agents_of self.old }
        requires spare { 2 * length spots.now ≤ self.old.locks.spare }
        requires room { 1 ≤ self.old.locks.room }
        ensures { self.new ≡ with_locks self.old (claims_adopted self.old.locks id by spots.now) }
    {
        self.locks.drop_all(LENDER);
        claim_spots(&mut self.locks, spots);
        self.locks.postpone(LENDER, id, by);
    }

    fn enter_rollback(
        &mut self,
        id: Lrsn,
        by: MemberId,
        changes: Vec<Change>,
        has_undone: bool,
        spots: &[Spot],
        kept: KeptNames,
    )
        requires may { may_adopt self.old id changes.items ≡ true }
        requires spare { 2 * length spots.now ≤ self.old.locks.spare }
        requires room { (1 ≤ self.old.locks.room) × (1 ≤ self.old.trans.room) }
        ensures { self.new ≡ adopted_in self.old id by changes.items has_undone spots.now kept }
    {
        self.claim_rollback(id, by, spots);
        self.trans.adopt(id, changes, has_undone);
        self.kept = kept;
    }

    /// Adds a rollback that a restart left, by its first number, which waits for this failed member: with the changes that
    /// stand, the oldest first, and those that were taken back. It claims their rows in X and their table spaces in IX, and
    /// the records of all these names are known as retained. Slot 1 must be free. Where there is no memory, nothing changes
    /// but the room.
    pub fn adopt(
        &mut self,
        id: Lrsn,
        by: MemberId,
        changes: Vec<Change>,
        undone: &[RowChange],
    ) -> Result<bool, NoMemory>
        ensures told { IfOk result (λ adopted. adopted ≡ may_adopt self.old id changes.items) }
        ensures after { OnOk result (self.new ≡ with_room_of (after_adopt self.old id by changes.items undone.now) self.new) }
        ensures err { OnErr result (self.new ≡ with_room_of self.old self.new) }
    {
        if !self.may_adopt(id, changes.as_slice()) {
            return Ok(false);
        }
        let spots = spots_of(self.alloc, changes.as_slice(), undone)?;
        let kept = self.kept.joined(spots.as_slice())?;
        self.reserve_rollback(spots.len())?;
        let has_undone = !undone.is_empty();
        self.enter_rollback(id, by, changes, has_undone, spots.as_slice(), kept);
        Ok(true)
    }
}
