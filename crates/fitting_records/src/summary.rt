//! What the records of all logs of a disk come to, before its pages are looked at.

ghost use Rattle.std.specs.Prelude.{◌≡◌, ◌≤◌, ◌<◌, ◌^◌, length, IfOk};
ghost use Rattle.disk_walk.specs.Reading.{Reads};
ghost use Rattle.disk_walk.specs.Whole.{OfWholeLogs};
ghost use Rattle.fitting_records.specs.Summed.{AreSummedOf, IsSummedUp};
ghost use Rattle.fitting_records.specs.Telling.{IsSummary};

use crate::laws::passing_laws;
use crate::sums::{Sums, any_asks};
use disk_walk::{Next, heads_to, next_of_all};
use ds_disk::{Disk, DiskError};
use log_heads::Heads;
use std::alloc::Global;

/// What the records of all logs come to.
#[derive(Drop)]
pub struct Summary {
    /// Whether each record is known to fit those before it. Where it isn't, they may fit each other or not.
    pub fits: bool,
    /// The greatest number, 0 where there is no record.
    pub greatest: u128,
    /// Whether a group restart still renews pages.
    pub renews: bool,
    /// How many parts of pages of each of the 64 tables are changed. Nothing that is told depends on it.
    pub counts: Vec<usize>,
}

// What the records that are left of all logs come to.
fn sum_left<D: Disk>(
    alloc: Global,
    disk: &mut D,
    heads: &mut Heads,
    block: &mut [u8],
) -> Result<Sums, DiskError>
    requires { heads.old.block ≡ length block.old }
    ensures olds { IfOk result (λ s. length s.olds.items ≡ 32) }
    ensures ends { IfOk result (λ s. length s.ends.items ≡ 32) }
    ensures count { IfOk result (λ s. length s.counts.items ≡ 64) }
    ensures sums { Reads (D.contents disk.old) (D.contents disk.new) (D.faults disk.old) (D.faults disk.new) (λ s c. AreSummedOf c.logs heads.old.heads s) result }
{
    passing_laws();
    let mut sums = Sums::new(alloc)?;
    for _ in 0..u64::MAX {
        match next_of_all(alloc, disk, heads, block)? {
            Next::Record { member, it } => sums.take(alloc, member, &it)?,
            // Nothing is met that isn't allowed.
            Next::Bad { .. } => return Err(DiskError::NoMemory),
            Next::End => return Ok(sums),
        }
    }
    // No disk has so many records.
    Err(DiskError::NoMemory)
}

// What is told of them.
fn summary_of(sums: Sums) -> Summary
    requires { length sums.olds.items ≡ length sums.ends.items }
    ensures { IsSummedUp sums result }
{
    let renews = any_asks(&sums.olds, &sums.ends);
    let Sums {
        fits,
        greatest,
        counts,
        ..
    } = sums;
    Summary {
        fits,
        greatest,
        renews,
        counts,
    }
}

/// What the records of all logs come to, whose whole records end at these bytes. They are read by blocks in the order of their
/// numbers, and what is held is open alone.
pub fn summarize<D: Disk>(
    alloc: Global,
    disk: &mut D,
    ends: &[u64],
    block: &mut [u8],
) -> Result<Summary, DiskError>
    requires ends { length ends.now ≡ 32 }
    requires some { 1 ≤ length block.old }
    requires fits { length block.old < 2 ^ 32 }
    ensures count { IfOk result (λ s. length s.counts.items ≡ 64) }
    ensures tells { Reads (D.contents disk.old) (D.contents disk.new) (D.faults disk.old) (D.faults disk.new) (λ s c. OfWholeLogs ends.now (IsSummary s) c) result }
{
    passing_laws();
    let mut heads = heads_to(alloc, ends, block.len() as u32)?;
    let sums = sum_left(alloc, disk, &mut heads, block)?;
    Ok(summary_of(sums))
}
