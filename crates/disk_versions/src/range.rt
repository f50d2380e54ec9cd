//! The page sets of some tables, page by page.

ghost use Rattle.std.specs.Prelude.{◌≡◌, ◌+◌, ◌*◌, ◌≤◌, ◌^◌, IfOk};
ghost use Rattle.ds_disk.specs.Pages.{page_at};
ghost use Rattle.redone_pages.specs.Ranges.{HasSet};
ghost use Rattle.disk_versions.specs.Reading.{Reads};
ghost use Rattle.disk_versions.specs.Ends.{pages_read};
ghost use Rattle.disk_versions.specs.Placing.{IsSetTold, IsCountUpTo};
ghost use Rattle.disk_versions.specs.Met.{AreMet};
ghost use Rattle.disk_versions.specs.Ranged.{IsRangeTold};

use crate::ends::{end_of, last_by_header};
use crate::met::MetPages;
use crate::page::load;
use crate::placed::judge;
use crate::set::{Placing, count_with};
use ds_base::PageId;
use ds_disk::{Disk, DiskError};
use page_format::Page;
use std::alloc::Global;

// The first `end` pages of the set.
fn check_pages<D: Disk>(
    alloc: Global,
    disk: &mut D,
    met: &MetPages,
    set: u16,
    end: u64,
    renews: bool,
) -> Result<Placing, DiskError>
    requires set_in { HasSet met.now.made.range set }
    requires end_in { end ≤ 2 ^ 32 }
    ensures told { Reads (D.contents disk.old) (D.contents disk.new) (D.faults disk.old) (D.faults disk.new) (λ found c. AreMet (page_at c.pages) met.now → IsSetTold (page_at c.pages) met.now.made.records renews set end found) result }
    ensures bound { IfOk result (λ found. IsCountUpTo (2 ^ 32) found) }
{
    let mut page = Page::zero(alloc)?;
    let mut pages = 0u64;
    for number in 0..end {
        let id = PageId {
            set,
            number: number as u32,
        };
        let judged = judge(disk, met, id, renews, &mut page)?;
        if !judged.is_placed {
            return Ok(Placing::Unplaced { id });
        }
        pages = count_with(pages, judged.is_written);
    }
    Ok(Placing::All { pages })
}

// How many pages of the set are read.
fn pages_read<D: Disk>(
    alloc: Global,
    disk: &mut D,
    met: &MetPages,
    set: u16,
    behind: u32,
) -> Result<u64, DiskError>
    ensures told { Reads (D.contents disk.old) (D.contents disk.new) (D.faults disk.old) (D.faults disk.new) (λ end c. end ≡ pages_read (page_at c.pages) met.now.made.records behind set) result }
    ensures bound { IfOk result (λ end. end ≤ 2 ^ 32) }
{
    let mut page = Page::zero(alloc)?;
    let id = PageId { set, number: 0 };
    load(disk, id, &mut page)?;
    let by_header = last_by_header(&page, id);
    let by_records = met.made.last(set);
    Ok(end_of(by_header, by_records, behind))
}

// What is found of the pages of the set.
fn check_set<D: Disk>(
    alloc: Global,
    disk: &mut D,
    met: &MetPages,
    set: u16,
    renews: bool,
    behind: u32,
) -> Result<Placing, DiskError>
    requires { HasSet met.now.made.range set }
    ensures told { Reads (D.contents disk.old) (D.contents disk.new) (D.faults disk.old) (D.faults disk.new) (λ found c. AreMet (page_at c.pages) met.now → IsSetTold (page_at c.pages) met.now.made.records renews set (pages_read (page_at c.pages) met.now.made.records behind set) found) result }
    ensures bound { IfOk result (λ found. IsCountUpTo (2 ^ 32) found) }
{
    let end = pages_read(alloc, disk, met, set, behind)?;
    check_pages(alloc, disk, met, set, end, renews)
}

/// What is found of the page sets of the tables: whether each of their pages may stand on the disk, by the records that made those
/// pages. `renews` says whether a group restart of the logs still renews pages. Of each page set so many pages are read behind the
/// last one that its header page or a record names.
///
/// One page of the disk is in memory at a time.
pub fn check_range<D: Disk>(
    alloc: Global,
    disk: &mut D,
    met: &MetPages,
    renews: bool,
    behind: u32,
) -> Result<Placing, DiskError>
    requires { met.now.made.range.first ≤ met.now.made.range.last }
    ensures { Reads (D.contents disk.old) (D.contents disk.new) (D.faults disk.old) (D.faults disk.new) (λ found c. AreMet (page_at c.pages) met.now → IsRangeTold (page_at c.pages) met.now.made renews behind found) result }
{
    let range = met.made.range();
    let mut pages = 0u64;
    let from = range.first.heap_set() - 1;
    let to = 2 * range.last.number() as u16;
    for before in from..to {
        let found = check_set(alloc, disk, met, before + 1, renews, behind)?;
        match found {
            Placing::All { pages: more } => pages += more,
            Placing::Unplaced { id } => return Ok(Placing::Unplaced { id }),
        }
    }
    Ok(Placing::All { pages })
}
