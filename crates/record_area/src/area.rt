//! Cells for records, of which nothing but the maker and `grow` take memory.

ghost use Rattle.std.specs.Prelude.{◌≡◌, ◌+◌, ◌<◌, ◌≤◌, ◌==◌, ◌^◌, IfOk, OnOk, OnErr};

use ds_base::NoMemory;
use std::alloc::Global;
use std::marker::Model;

/// More records than any memory holds.
const MOST: usize = 1 << 62;

/// What has the memory of one record.
pub trait Cell: Drop {
    /// A cell without a record.
    fn empty() -> Self;
}

/// Room for so many records, of which some is free.
#[derive(Drop)]
pub struct Area<C> {
    cells: Vec<Box<C>>,
    size: usize,
    alloc: Global,
}

impl<C> Model for Area<C> {
    ghost use Rattle.std.specs.Prelude.{◌≤◌, vec_len, vec_capacity};
    ghost use Rattle.record_area.specs.Areas.{Room};

    ghost Value = { Room };

    ghost view = { λ a. record { free = vec_len a.cells; size = a.size } };

    ghost invariant = { λ a. (vec_len a.cells ≤ a.size) × (a.size ≤ vec_capacity a.cells) };
}

impl<C: Cell> Area<C> {
    /// Room for so many records, all of whose memory is taken now.
    pub fn new(alloc: Global, size: u32) -> Result<Area<C>, NoMemory>
        ensures { IfOk result (λ a. (a.free ≡ size) × (a.size ≡ size)) }
    {
        let mut cells = Vec::with_capacity(alloc, size as usize)?;
        for _made in 0..size {
            cells.push_reserved(Box::new(alloc, C::empty())?);
        }
        Ok(Area {
            cells,
            size: size as usize,
            alloc,
        })
    }

    /// For how many more records there is room.
    pub fn free(&self) -> usize
        ensures { result ≡ self.now.free }
    {
        self.cells.len()
    }

    /// For how many records there is room in all.
    pub fn size(&self) -> usize
        ensures { result ≡ self.now.size }
    {
        self.size
    }

    /// Whether there is room for no further record.
    pub fn is_full(&self) -> bool
        ensures { result ≡ (self.now.free == 0) }
    {
        self.cells.is_empty()
    }

    /// Makes room for one more record.
    pub fn grow(&mut self) -> Result<(), NoMemory>
        ensures more { OnOk result ((self.new.free ≡ self.old.free + 1) × (self.new.size ≡ self.old.size + 1)) }
        ensures few { OnOk result (self.new.size ≤ 2 ^ 62) }
        ensures same { OnErr result (self.new ≡ self.old) }
    {
        if self.size >= MOST {
            return Err(NoMemory);
        }
        let more = self.size + 1 - self.cells.len();
        self.cells.reserve(more)?;
        let cell = Box::new(self.alloc, C::empty())?;
        self.cells.push_reserved(cell);
        self.size += 1;
        Ok(())
    }

    /// A cell for one record.
    pub fn take(&mut self) -> Box<C>
        requires { 0 < self.old.free }
        ensures free { self.new.free + 1 ≡ self.old.free }
        ensures size { self.new.size ≡ self.old.size }
    {
        self.cells.pop().unwrap()
    }

    /// Takes back the cell of one record.
    pub fn give_back(&mut self, cell: Box<C>)
        requires { self.old.free < self.old.size }
        ensures free { self.new.free ≡ self.old.free + 1 }
        ensures size { self.new.size ≡ self.old.size }
    {
        self.cells.push_reserved(cell);
    }
}
