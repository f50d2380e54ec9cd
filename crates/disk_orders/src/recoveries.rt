ghost use Rattle.disk_orders.specs.Recovering.{RecoversTable};

use crate::restarts::restart;
use copy_recover::recover;
use ds_base::{Source, TableId};
use ds_disk::Disk;
use std::alloc::Global;
use table_copy::CopyFault;

/// Makes a table anew from the image that is left of the source and the logs, and runs a group restart. The answer is how many pages were
/// written that aren't all zeros.
pub fn recover_table<D: Disk, S: Source>(
    alloc: Global,
    disk: &mut D,
    source: &mut S,
    table: TableId,
) -> Result<u64, CopyFault>
    ensures { RecoversTable table (record { contents = D.contents disk.old; disk_faults = D.faults disk.old; left = S.left source.old; source_faults = S.faults source.old })
        (record { contents = D.contents disk.new; disk_faults = D.faults disk.new; left = S.left source.new; source_faults = S.faults source.new }) result }
{
    match recover(alloc, disk, source, table) {
        Err(fault) => Err(fault),
        Ok(pages) => match restart(alloc, disk) {
            Err(fault) => Err(fault),
            Ok(()) => Ok(pages),
        },
    }
}
