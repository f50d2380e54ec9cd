//! What is told of the tables so far, by one walk over all records for each range of them.

ghost use Rattle.std.specs.Prelude.{◌≡◌, ℕ, ◌+◌, ◌≤◌, length, IfOk};
ghost use Rattle.page_chain.specs.Chains.{images_of};
ghost use Rattle.disk_walk.specs.Reading.{Reads};
ghost use Rattle.space_check.specs.Scans.{IsScan};
ghost use Rattle.space_check.specs.Tables.{AreWholeUpTo, IsNothingTold, AddsScan, TellsRange};

use crate::scan::TableScan;
use crate::walk::scan_tables;
use disk_versions::{Placing, check_range, placing_laws};
use ds_base::{NoMemory, PageId};
use ds_disk::{Disk, DiskError};
use index_places::find_unwhole;
use redone_pages::TableRange;
use row_turns::{Told, turn_laws};
use std::alloc::Global;
use stood_rows::{Unstood, sooner, unstood_laws};

/// What is told of the first tables. Each of their pages may stand on the disk.
#[derive(Clone, Copy, Debug)]
pub struct TablesTold {
    /// How many of their pages aren't all zeros.
    pub pages: u64,
    /// The page that is named of the first that isn't whole.
    pub unwhole: Option<PageId>,
    /// The first record that didn't meet its row, or took a slot from its key.
    pub unstood: Option<Unstood>,
    /// The first record that changed a row out of turn; else what is open and what is left.
    pub turns: Told,
}

// No disk has so many pages that a number of 64 bits doesn't hold how many.
fn add_pages(pages: u64, more: u64) -> Result<u64, NoMemory>
    ensures { IfOk result (λ sum. sum ≡ pages + more) }
{
    pages.checked_add(more).ok_or(NoMemory)
}

// The page that is named of the first table that isn't whole, of those before the range and its own.
fn first_unwhole(
    alloc: Global,
    before: Option<PageId>,
    scan: &TableScan,
) -> Result<Option<PageId>, NoMemory>
    requires { IsScan scan.now.met.made.range scan.now.turns.is_early scan.now }
    ensures { IfOk result (λ found. (n : ℕ) → scan.now.met.made.range.first ≡ n + 1 → AreWholeUpTo (images_of scan.now.met.made.records) scan.now.met.made.records n before → AreWholeUpTo (images_of scan.now.met.made.records) scan.now.met.made.records scan.now.met.made.range.last found) }
{
    match before {
        Some(id) => Ok(Some(id)),
        None => find_unwhole(alloc, &scan.met.made, &scan.standing.rows.rows),
    }
}

impl TablesTold {
    /// Before the first table.
    pub fn new() -> TablesTold
        ensures { IsNothingTold result }
    {
        placing_laws();
        unstood_laws();
        TablesTold {
            pages: 0,
            unwhole: None,
            unstood: None,
            turns: Told::none(),
        }
    }

    // Adds what was told of the next tables, of which so many pages aren't all zeros.
    fn add_scan(&self, alloc: Global, scan: &TableScan, pages: u64) -> Result<TablesTold, NoMemory>
        requires range { scan.now.met.made.range.first ≤ scan.now.met.made.range.last }
        requires scan { IsScan scan.now.met.made.range scan.now.turns.is_early scan.now }
        ensures { IfOk result (λ told. AddsScan scan.now.met.made.range scan.now.turns.is_early scan.now.met.made.records pages self.now told) }
    {
        unstood_laws();
        turn_laws();
        let pages = add_pages(self.pages, pages)?;
        let unwhole = first_unwhole(alloc, self.unwhole, scan)?;
        let unstood = sooner(self.unstood, scan.standing.first);
        let told = scan.turns.told(alloc)?;
        let turns = self.turns.and(&told)?;
        Ok(TablesTold {
            pages,
            unwhole,
            unstood,
            turns,
        })
    }
}

/// What was found of a range of tables.
#[derive(Clone, Copy, Debug)]
pub enum RangeFound {
    /// The first page of all that may not stand on the disk.
    Unplaced { id: PageId },
    /// What is told with these tables.
    Told { told: TablesTold },
}

/// Tells of the tables of the range, behind what was told of all before them. All records are read once, and each page of these tables.
pub fn add_range<D: Disk>(
    alloc: Global,
    disk: &mut D,
    ends: &[u64],
    range: TableRange,
    is_early: bool,
    renews: bool,
    behind: u32,
    told: &TablesTold,
    block: &mut [u8],
) -> Result<RangeFound, DiskError>
    requires ends { length ends.now ≡ 32 }
    requires block { length block.old ≡ 65536 }
    requires range { range.first ≤ range.last }
    ensures { Reads (D.contents disk.old) (D.contents disk.new) (D.faults disk.old) (D.faults disk.new) (λ found c. TellsRange is_early ends.now renews behind range told.now found c) result }
{
    let scan = scan_tables(alloc, disk, ends, range, is_early, block)?;
    let placed = check_range(alloc, disk, &scan.met, renews, behind)?;
    match placed {
        Placing::Unplaced { id } => Ok(RangeFound::Unplaced { id }),
        Placing::All { pages } => {
            let told = told.add_scan(alloc, &scan, pages)?;
            Ok(RangeFound::Told { told })
        }
    }
}
