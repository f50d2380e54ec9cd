//! All tables, by ranges of which each has no more changes than fit in memory, or one table alone.

ghost use Rattle.std.specs.Prelude.{◌≡◌, ◌+◌, ◌<◌, ◌≤◌, length};
ghost use Rattle.disk_walk.specs.Reading.{Reads};
ghost use Rattle.space_check.specs.Tables.{TellsAll};

use crate::told::{RangeFound, TablesTold, add_range};
use ds_base::TableId;
use ds_disk::{Disk, DiskError};
use redone_pages::TableRange;
use std::alloc::Global;

// How many changes the tables of a range have in all, unless it is one table.
const CHANGES: usize = 4_096;

fn table(number: u64) -> TableId
    requires some { 1 ≤ number }
    requires few { number ≤ 64 }
    ensures { result ≡ number }
{
    match TableId::new(number) {
        Some(table) => table,
        None => unreachable!(),
    }
}

fn count_of(counts: &[usize], before: u64) -> usize {
    counts.get(before as usize).copied().unwrap_or(0)
}

// How many tables there are up to the last of the range that begins behind so many.
fn last_of(counts: &[usize], before: u64) -> u64
    requires { before < 64 }
    ensures some { before < result }
    ensures few { result ≤ 64 }
{
    let mut last = before + 1;
    let mut sum = count_of(counts, before);
    while last < 64 {
        sum = sum.saturating_add(count_of(counts, last));
        if CHANGES < sum {
            return last;
        }
        last += 1;
    }
    last
}

// The range that begins behind so many tables.
fn range_behind(counts: &[usize], before: u64) -> TableRange
    requires { before < 64 }
    ensures first { result.first ≡ before + 1 }
    ensures last { before < result.last }
    ensures few { result.last ≤ 64 }
{
    TableRange {
        first: table(before + 1),
        last: table(last_of(counts, before)),
    }
}

/// What is told of all tables by the records of all logs, whose whole records end at these bytes; or the first page that may not
/// stand on the disk. `counts` has for each table how many parts of its pages are changed;
/// `is_early` says that no transaction changes a row behind its Commit.
///
/// The records are read once for each range, whose tables have no more than 4,096 changes in all, or for each table that has more. What
/// is held are the pages and the rows of these tables as the records make them, and what is open.
pub fn tell_tables<D: Disk>(
    alloc: Global,
    disk: &mut D,
    ends: &[u64],
    counts: &[usize],
    is_early: bool,
    renews: bool,
    behind: u32,
    block: &mut [u8],
) -> Result<RangeFound, DiskError>
    requires ends { length ends.now ≡ 32 }
    requires block { length block.old ≡ 65536 }
    ensures { Reads (D.contents disk.old) (D.contents disk.new) (D.faults disk.old) (D.faults disk.new) (λ found c. TellsAll is_early ends.now renews behind found c) result }
{
    let mut told = TablesTold::new();
    let mut tables = 0;
    while tables < 64 {
        let range = range_behind(counts, tables);
        let last = range.last.number();
        let found = add_range(
            alloc, disk, ends, range, is_early, renews, behind, &told, block,
        )?;
        match found {
            RangeFound::Told { told: more } => told = more,
            RangeFound::Unplaced { id } => return Ok(RangeFound::Unplaced { id }),
        }
        tables = last;
    }
    Ok(RangeFound::Told { told })
}
