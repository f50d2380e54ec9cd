//! The group restart before a copy, and behind a recovery.

ghost use Rattle.disk_orders.specs.Restarting.{Restarts};

use disk_restart::{State, restart_disk};
use ds_disk::Disk;
use std::alloc::Global;
use table_copy::CopyFault;

/// Runs a group restart to its end, whatever the disk was before.
pub fn restart<D: Disk>(alloc: Global, disk: &mut D) -> Result<(), CopyFault>
    ensures { Restarts (D.contents disk.old) (D.contents disk.new) (D.faults disk.old) (D.faults disk.new) result }
{
    match restart_disk(alloc, disk)? {
        State::Done { .. } => Ok(()),
        State::Failed => Err(CopyFault::Disk),
        State::Damaged { volume, at } => Err(CopyFault::Damaged { volume, at }),
        State::Going => unreachable!(),
    }
}
