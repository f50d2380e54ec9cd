//! The cells of queries, by the places of asker and asked member, and how many to each member are asked.
ghost use Rattle.std.specs.Prelude.{◌≡◌, ℕ, ◌+◌, ◌*◌, ◌<◌, ◌≤◌, ◌==◌, ◌&&◌, ◌||◌, length, slice_index_or, nat_lt, nat_le, not, true, false, Some, None, IfOk, IfSome, IfNone, if◌then◌else◌, ◌↔◌};
ghost use Rattle.list_structure.specs.Cells.{cell_at, cells_at, is_asked};
ghost use Rattle.list_structure.specs.Counts.{one_if};
ghost use Rattle.list_structure.specs.declared.query.Cell.TheVariants.{Empty};

use crate::Cell;
use crate::copies::copies;
use ds_base::NoMemory;
use std::alloc::Global;
use std::marker::Model;

/// Places of members.
const MEMBERS: usize = 32;

/// Slots of a member.
const SLOTS: usize = 17;

/// Places of askers.
const ASKERS: usize = 544;

/// One cell for each asker and asked member.
#[derive(Drop)]
pub struct Cells {
    cells: Vec<Cell>,
    asked: Vec<u16>,
    // By asked member, and for each of them by asker.
    marks: Vec<bool>,
}

impl Model for Cells {
    ghost use Rattle.std.specs.Prelude.{List};
    ghost use Rattle.list_structure.specs.declared.query.Cell.{Cell};
    ghost use Rattle.list_structure.specs.Counts.{IsCounted, IsMarked};

    ghost Value = { List Cell };

    ghost view = { λ c. c.cells.items };

    ghost invariant = { λ c. IsCounted c.cells.items c.asked.items × IsMarked c.cells.items c.marks.items };
}

impl Cells {
    /// Empty cells.
    pub fn new(alloc: Global) -> Result<Cells, NoMemory>
        ensures { IfOk result (λ cells. (i t : ℕ) → cell_at cells i t ≡ Empty) }
    {
        Ok(Cells {
            cells: copies(alloc, Cell::Empty, ASKERS * MEMBERS)?,
            asked: copies(alloc, 0, MEMBERS)?,
            marks: copies(alloc, false, MEMBERS * ASKERS)?,
        })
    }

    /// The cell of the asker to the member.
    pub fn get(&self, asker: usize, to: usize) -> Cell
        requires asker { asker < 544 }
        requires to { to < 32 }
        ensures { result ≡ cell_at self.now asker to }
    {
        self.cells[asker * MEMBERS + to]
    }

    /// The cells of an asker, by asked member.
    pub fn by_asker(&self, asker: usize) -> &[Cell]
        requires { asker < 544 }
        ensures cells { result.now ≡ cells_at self.now asker }
        ensures count { length result.now ≡ 32 }
        ensures each { (t : ℕ) → t < 32 → slice_index_or result.now t Empty ≡ cell_at self.now asker t }
    {
        let start = asker * MEMBERS;
        &self.cells[start..start + MEMBERS]
    }

    /// Sets one cell.
    pub fn put(&mut self, asker: usize, to: usize, cell: Cell)
        requires asker { asker < 544 }
        requires to { to < 32 }
        ensures { (i t : ℕ) → t < 32 → cell_at self.new i t ≡ (if (i == asker) && (t == to) then cell else cell_at self.old i t) }
    {
        let place = asker * MEMBERS + to;
        let before = self.cells[place].is_asked();
        let after = cell.is_asked();
        self.asked[to] = recount(self.asked[to], before, after);
        self.cells[place] = cell;
        self.marks[to * ASKERS + asker] = after;
    }

    /// Empties the cells of an asker.
    pub fn empty_asker(&mut self, asker: usize)
        requires asker { asker < 544 }
        ensures { (i t : ℕ) → t < 32 → cell_at self.new i t ≡ (if i == asker then Empty else cell_at self.old i t) }
    {
        for to in 0..MEMBERS {
            self.put(asker, to, Cell::Empty);
        }
    }

    /// Empties the cells of all askers of a member.
    pub fn empty_askers(&mut self, member: usize)
        requires { member < 32 }
        ensures { (i t : ℕ) → t < 32 → cell_at self.new i t ≡ (if nat_le (member * 17) i && nat_lt i (member * 17 + 17) then Empty else cell_at self.old i t) }
    {
        for asker in member * SLOTS..member * SLOTS + SLOTS {
            self.empty_asker(asker);
        }
    }

    /// Empties the cells to a member.
    pub fn empty_asked(&mut self, to: usize)
        requires { to < 32 }
        ensures { (i t : ℕ) → i < 544 → t < 32 → cell_at self.new i t ≡ (if t == to then Empty else cell_at self.old i t) }
    {
        for asker in 0..ASKERS {
            self.put(asker, to, Cell::Empty);
        }
    }

    /// Empties all cells.
    pub fn clear(&mut self)
        ensures { (i t : ℕ) → i < 544 → t < 32 → cell_at self.new i t ≡ Empty }
    {
        for asker in 0..ASKERS {
            self.empty_asker(asker);
        }
    }

    /// Whether a cell to the member is asked.
    pub fn has_asked(&self, to: usize) -> bool
        requires { to < 32 }
        ensures { (result ≡ false) ↔ ((i : ℕ) → i < 544 → is_asked (cell_at self.now i to) ≡ false) }
    {
        self.asked[to] > 0
    }

    /// The first asker from one place up to another whose cell to the member is asked.
    pub fn first_asked(&self, from: usize, until: usize, to: usize) -> Option<usize>
        requires until { until ≤ 544 }
        requires to { to < 32 }
        ensures none { IfNone result ((i : ℕ) → from ≤ i → i < until → is_asked (cell_at self.now i to) ≡ false) }
        ensures range { IfSome result (λ found. (from ≤ found) × (found < until)) }
        ensures found { IfSome result (λ found. is_asked (cell_at self.now found to) ≡ true) }
        ensures first { IfSome result (λ found. (i : ℕ) → from ≤ i → i < found → is_asked (cell_at self.now i to) ≡ false) }
    {
        for asker in from..until {
            if self.marks[to * ASKERS + asker] {
                return Some(asker);
            }
        }
        None
    }
}

// The count after a cell was set.
fn recount(count: u16, before: bool, after: bool) -> u16
    requires there { one_if before ≤ count }
    requires range { count ≤ 544 }
    ensures { result + one_if before ≡ count + one_if after }
{
    let others = if before { count - 1 } else { count };
    if after { others + 1 } else { others }
}
