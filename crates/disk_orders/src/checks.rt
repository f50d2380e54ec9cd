ghost use Rattle.disk_orders.specs.Checks.{IsChecked};

use ds_disk::{Disk, DiskError};
use space_check::{Breach, Verdict, check_disk};
use std::alloc::Global;

/// What the check of a disk came to.
#[derive(Clone, Copy, Debug, PartialEq, Eq)]
pub enum Checked {
    /// The disk is sound; so many pages aren't all zeros, and the logs stand for so many rows.
    Sound { pages: u64, rows: u64 },
    /// This is the first clause that doesn't hold, and its first spot.
    Unsound(Breach),
    /// A call of the disk failed.
    Failed,
    /// Memory was wanting.
    NoMemory,
}

/// Reads the whole disk, and tells whether it is sound. Nothing is written.
pub fn check<D: Disk>(alloc: Global, disk: &mut D) -> Checked
    ensures { IsChecked (D.contents disk.old) (D.contents disk.new) (D.faults disk.old) (D.faults disk.new) result }
{
    match check_disk(alloc, disk) {
        Ok(Verdict::Sound { pages, rows }) => Checked::Sound { pages, rows },
        Ok(Verdict::Unsound { breach }) => Checked::Unsound(breach),
        Err(DiskError::Failed) => Checked::Failed,
        Err(DiskError::NoMemory) => Checked::NoMemory,
    }
}
