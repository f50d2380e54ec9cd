//! The survey of all logs of a disk.

ghost use Rattle.std.specs.Prelude.{◌≡◌, ◌+◌, ◌<◌, ◌≤◌, ◌^◌, ◌∷◌, ◌++◌, [], ℕ, take, length, IfOk, OnOk};
ghost use Rattle.std.specs.BTreeSet as set;
ghost use Rattle.std.specs.Ordering.{nat_cmp};
ghost use Rattle.opening_rows.specs.Reading.{ReadsBy, BreaksAt};
ghost use Rattle.opening_rows.specs.Surveyed.{AreSurveyed};

use crate::fault::LogsFault;
use crate::logs::{MEMBERS, member_behind};
use crate::survey::{Found, survey_log};
use ds_base::NoMemory;
use ds_disk::Disk;
use std::alloc::Global;
use std::collections::BTreeSet;

/// What the survey of all logs found.
#[derive(Drop)]
pub struct Surveyed {
    /// How many bytes the whole records of each log have.
    pub ends: Vec<u64>,
    /// How many records each log has.
    pub had: Vec<usize>,
    /// The transactions that are pending: they have changed a row, and no Commit record of theirs stands behind it.
    pub pending: BTreeSet<u128>,
}

fn put(ends: &mut Vec<u64>, had: &mut Vec<usize>, found: Found) -> Result<(), NoMemory>
    ensures ends { OnOk result (ends.new.items ≡ ends.old.items ++ found.end ∷ []) }
    ensures had { OnOk result (had.new.items ≡ had.old.items ++ found.count ∷ []) }
{
    ends.push(found.end)?;
    had.push(found.count)?;
    Ok(())
}

// Surveys the log of the member behind so many others.
fn survey_next<D: Disk>(
    alloc: Global,
    disk: &mut D,
    n: usize,
    all: &mut Surveyed,
    block: &mut [u8],
) -> Result<(), LogsFault>
    requires member { n < 32 }
    requires some { 1 ≤ length block.old }
    requires fits { length block.old < 2 ^ 32 }
    ensures surveyed { ReadsBy (D.contents disk.old) (D.contents disk.new) (D.faults disk.old) (D.faults disk.new)
        (λ _ c. length c.logs ≡ 32 → AreSurveyed (take n c.logs) all.old.ends.items all.old.had.items (set.contains nat_cmp all.old.pending) → AreSurveyed (take (n + 1) c.logs) all.new.ends.items all.new.had.items (set.contains nat_cmp all.new.pending))
        BreaksAt result }
    ensures one { OnOk result (length all.new.ends.items ≡ length all.old.ends.items + 1) }
{
    let found = survey_log(alloc, disk, member_behind(n), &mut all.pending, block)?;
    put(&mut all.ends, &mut all.had, found)?;
    Ok(())
}

/// Surveys the logs of all members in their order.
pub fn survey_logs<D: Disk>(
    alloc: Global,
    disk: &mut D,
    block: &mut [u8],
) -> Result<Surveyed, LogsFault>
    requires some { 1 ≤ length block.old }
    requires fits { length block.old < 2 ^ 32 }
    ensures surveyed { ReadsBy (D.contents disk.old) (D.contents disk.new) (D.faults disk.old) (D.faults disk.new)
        (λ all c. AreSurveyed c.logs all.ends.items all.had.items (set.contains nat_cmp all.pending)) BreaksAt result }
    ensures count { IfOk result (λ all. length all.ends.items ≡ 32) }
{
    let mut all = Surveyed {
        ends: Vec::new(alloc),
        had: Vec::new(alloc),
        pending: BTreeSet::new(alloc),
    };
    for n in 0..MEMBERS {
        survey_next(alloc, disk, n, &mut all, block)?;
    }
    Ok(all)
}
