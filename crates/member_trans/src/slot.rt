ghost use Rattle.std.specs.Prelude.{◌≡◌, ◌<◌, ◌++◌, ◌∷◌, [], replicate, false, slice_index_or, vec_len, vec_capacity, OnOk, OnErr};
ghost use Rattle.member_trans.specs.declared.fate.Stage.TheVariants.{Postponed};
ghost use Rattle.member_trans.specs.Trans.{free_tran, begun, drawn, decided_tran, undoing, changed, with_set, with_undone, with_released, with_room, newest_of, first_with, left_open};

use crate::fate::{Change, Stage};
use ds_base::{Lrsn, NoMemory};
use ds_model::RowChange;
use std::alloc::Global;
use std::marker::Model;

/// How many numbers there are for page sets: 0 stands for none.
const SETS: usize = 129;

/// The transaction of a slot, or a postponed rollback.
#[derive(Drop)]
pub struct Slot {
    pub stage: Stage,
    pub number: u32,
    pub first: Lrsn,
    pub sets: [bool; SETS],
    pub changes: Vec<Change>,
    pub undone: bool,
    pub ended: Lrsn,
    pub released: bool,
    has_room: bool,
}

impl Model for Slot {
    ghost use Rattle.std.specs.Prelude.{◌≡◌, ◌<◌, true, vec_len, vec_capacity};
    ghost use Rattle.member_trans.specs.Trans.{TranState};

    ghost Value = { TranState };

    ghost view = { λ s. record { stage = s.stage; number = s.number; first = s.first; sets = s.sets; changes = s.changes.items; undone = s.undone; ended = s.ended; released = s.released; has_room = s.has_room } };

    ghost invariant = { λ s. s.has_room ≡ true → vec_len s.changes < vec_capacity s.changes };
}

pub fn no_number() -> Lrsn
    ensures { result ≡ 0 }
{
    Lrsn::new(0).unwrap()
}

fn no_sets() -> [bool; SETS]
    ensures { result ≡ replicate 129 false }
{
    [false; SETS]
}

fn change_of(lrsn: Lrsn, change: &RowChange) -> Change
    ensures { result ≡ record { lrsn = lrsn; change = change.now } }
{
    Change {
        lrsn,
        change: *change,
    }
}

// Adds a change, for which there is room.
fn add_change(changes: &mut Vec<Change>, lrsn: Lrsn, change: &RowChange)
    requires { vec_len changes.old < vec_capacity changes.old }
    ensures { changes.new.items ≡ changes.old.items ++ record { lrsn = lrsn; change = change.now } ∷ [] }
{
    let after = change.after;
    changes.push_reserved(Change {
        lrsn,
        change: RowChange { after, ..*change },
    });
}

impl Slot {
    /// No transaction.
    pub fn new(alloc: Global) -> Slot
        ensures { result ≡ free_tran }
    {
        Slot {
            stage: Stage::Free,
            number: 0,
            first: no_number(),
            sets: no_sets(),
            changes: Vec::new(alloc),
            undone: false,
            ended: no_number(),
            released: false,
            has_room: false,
        }
    }

    /// What a slot keeps of a transaction of this number whose rollback is postponed.
    pub fn left_behind(alloc: Global, number: u32) -> Slot
        ensures { result ≡ record free_tran { stage = Postponed; number = number } }
    {
        Slot {
            stage: Stage::Postponed,
            number,
            ..Slot::new(alloc)
        }
    }

    /// A rollback that a restart left, by its first number, with the changes that stand.
    pub fn left_open(alloc: Global, id: Lrsn, changes: Vec<Change>, undone: bool) -> Slot
        ensures { result ≡ left_open id changes.items undone }
    {
        Slot {
            stage: Stage::Undoing,
            first: id,
            changes,
            undone,
            ..Slot::new(alloc)
        }
    }

    /// Forgets the transaction.
    pub fn clear(&mut self)
        ensures { self.new ≡ free_tran }
    {
        self.stage = Stage::Free;
        self.number = 0;
        self.first = no_number();
        self.sets = no_sets();
        self.changes.clear();
        self.undone = false;
        self.ended = no_number();
        self.released = false;
        self.has_room = false;
    }

    /// Whether pages of the set were changed.
    pub fn has_set(&self, set: u16) -> bool
        ensures { result ≡ slice_index_or self.now.sets set false }
    {
        match self.sets.get(set as usize) {
            Some(is_in) => *is_in,
            None => false,
        }
    }

    /// The newest change that stands.
    pub fn newest(&self) -> Option<Change>
        ensures { result ≡ newest_of self.now }
    {
        match self.changes.last() {
            Some(it) => Some(change_of(it.lrsn, &it.change)),
            None => None,
        }
    }

    pub fn has_room(&self) -> bool
        ensures { result ≡ self.now.has_room }
    {
        self.has_room
    }

    /// A transaction with this number in the script takes the slot.
    pub fn begin(&mut self, number: u32)
        ensures { self.new ≡ begun number }
    {
        self.clear();
        self.stage = Stage::Forward;
        self.number = number;
    }

    pub fn draw(&mut self)
        ensures { self.new ≡ drawn self.old }
    {
        self.stage = Stage::Drawn;
    }

    pub fn decide(&mut self)
        ensures { self.new ≡ decided_tran self.old }
    {
        self.stage = Stage::Decided;
    }

    pub fn undo(&mut self)
        ensures { self.new ≡ undoing self.old }
    {
        self.stage = Stage::Undoing;
    }

    /// Takes the memory for one more change.
    pub fn reserve(&mut self) -> Result<(), NoMemory>
        ensures ok { OnOk result (self.new ≡ with_room self.old) }
        ensures err { OnErr result (self.new ≡ self.old) }
    {
        self.changes.reserve(1)?;
        self.has_room = true;
        Ok(())
    }

    /// Notes a row change, for which room was taken.
    pub fn note_change(&mut self, lrsn: Lrsn, change: &RowChange)
        ensures { self.new ≡ changed self.old lrsn change.now }
    {
        if self.has_room {
            self.note_first(lrsn);
            add_change(&mut self.changes, lrsn, change);
            self.has_room = false;
        }
    }

    fn note_first(&mut self, lrsn: Lrsn)
        ensures { self.new ≡ record self.old { first = first_with self.old.first lrsn } }
    {
        if self.first.number() == 0 {
            self.first = lrsn;
        }
    }

    /// Notes that pages of the set were changed.
    pub fn note_set(&mut self, set: u16)
        ensures { self.new ≡ with_set self.old set }
    {
        if (set as usize) < SETS {
            self.sets[set as usize] = true;
        }
    }

    /// The newest change was taken back, by a record of this number; behind the last one stands the Ended record.
    pub fn note_undone(&mut self, lrsn: Lrsn)
        ensures { self.new ≡ with_undone self.old lrsn }
    {
        if self.changes.pop().is_some() {
            self.undone = true;
            if self.changes.is_empty() {
                self.ended = lrsn;
            }
        }
    }

    pub fn note_released(&mut self)
        ensures { self.new ≡ with_released self.old }
    {
        self.released = true;
    }
}
