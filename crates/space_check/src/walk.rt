//! The records of all logs, read by blocks, scanned for some tables.

ghost use Rattle.std.specs.Prelude.{◌≡◌, Bool, length, IfOk, OnOk};
ghost use Rattle.redone_pages.specs.declared.range.TableRange.{TableRange};
ghost use Rattle.disk_walk.specs.Reading.{Reads};
ghost use Rattle.space_check.specs.Scans.{IsScan, ScansLeft, IsScanOf};

use crate::scan::TableScan;
use disk_walk::{Next, heads_to, next_of_all};
use ds_disk::{Disk, DiskError};
use log_heads::Heads;
use redone_pages::TableRange;
use row_turns::merged_laws;
use std::alloc::Global;

/// How many bytes of a log are read at most by one call of the disk.
pub const BLOCK: usize = 65_536;

// Scans the records that are left of all logs.
fn scan_left<D: Disk>(
    alloc: Global,
    disk: &mut D,
    heads: &mut Heads,
    scan: &mut TableScan,
    block: &mut [u8],
) -> Result<(), DiskError>
    requires block { heads.old.block ≡ length block.old }
    requires range { scan.old.met.made.range ≡ scan.old.standing.rows.range }
    ensures scan { OnOk result ((range : TableRange) (early : Bool) → IsScan range early scan.old → IsScan range early scan.new) }
    ensures scanned { Reads (D.contents disk.old) (D.contents disk.new) (D.faults disk.old) (D.faults disk.new) (λ _ c. ScansLeft c heads.old.heads scan.old scan.new) result }
{
    for _ in 0..u64::MAX {
        match next_of_all(alloc, disk, heads, block)? {
            Next::Record { it, .. } => scan.take_any(alloc, disk, &it)?,
            // Nothing is met that isn't allowed.
            Next::Bad { .. } => return Err(DiskError::NoMemory),
            Next::End => return Ok(()),
        }
    }
    // No disk has so many records.
    Err(DiskError::NoMemory)
}

/// What the records of all logs, whose whole records end at these bytes, tell of some tables, of which each record is taken in the
/// order of their numbers.
pub fn scan_tables<D: Disk>(
    alloc: Global,
    disk: &mut D,
    ends: &[u64],
    range: TableRange,
    is_early: bool,
    block: &mut [u8],
) -> Result<TableScan, DiskError>
    requires ends { length ends.now ≡ 32 }
    requires block { length block.old ≡ 65536 }
    ensures scan { IfOk result (IsScan range is_early) }
    ensures scanned { Reads (D.contents disk.old) (D.contents disk.new) (D.faults disk.old) (D.faults disk.new) (λ scan c. IsScanOf ends.now scan c) result }
{
    merged_laws();
    let mut heads = heads_to(alloc, ends, BLOCK as u32)?;
    let mut scan = TableScan::new(alloc, &range, is_early);
    scan_left(alloc, disk, &mut heads, &mut scan, block)?;
    Ok(scan)
}
