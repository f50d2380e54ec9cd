ghost use Rattle.disk_orders.specs.Restarting.{Opens};
ghost use Rattle.disk_orders.specs.Copying.{IsCopied};

use crate::numbers::greatest_number;
use crate::restarts::restart;
use ds_base::{Lrsn, Sink, TableId};
use ds_disk::Disk;
use std::alloc::Global;
use table_copy::{CopyFault, write_image};

/// What the copy of a table came to.
#[derive(Clone, Copy, Debug, PartialEq, Eq)]
pub enum Copied {
    /// The sink took the image, in which so many pages stand.
    Whole { pages: u64 },
    /// The sink took a front of the image, which may be empty.
    Broken(CopyFault),
    /// The group restart wasn't done, or the logs weren't read back. The sink took nothing.
    Unopened(CopyFault),
}

// Runs a group restart. The answer is the greatest number of the logs that it leaves.
fn open_disk<D: Disk>(alloc: Global, disk: &mut D) -> Result<Lrsn, CopyFault>
    ensures { Opens (D.contents disk.old) (D.contents disk.new) (D.faults disk.old) (D.faults disk.new) result }
{
    match restart(alloc, disk) {
        Err(fault) => Err(fault),
        Ok(()) => greatest_number(alloc, disk),
    }
}

/// Runs a group restart, and writes the image of a table to the sink. Its number is the greatest one of the logs.
pub fn copy<D: Disk, K: Sink>(alloc: Global, disk: &mut D, sink: &mut K, table: TableId) -> Copied
    ensures { IsCopied table (record { contents = D.contents disk.old; disk_faults = D.faults disk.old; taken = K.taken sink.old; sink_faults = K.faults sink.old })
        (record { contents = D.contents disk.new; disk_faults = D.faults disk.new; taken = K.taken sink.new; sink_faults = K.faults sink.new }) result }
{
    let lrsn = match open_disk(alloc, disk) {
        Err(fault) => return Copied::Unopened(fault),
        Ok(lrsn) => lrsn,
    };
    match write_image(alloc, disk, sink, table, lrsn) {
        Ok(pages) => Copied::Whole { pages },
        Err(fault) => Copied::Broken(fault),
    }
}
