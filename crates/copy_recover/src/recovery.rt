//! The recovery of a table.

ghost use Rattle.std.specs.Prelude.{Some};
ghost use Rattle.copy_recover.specs.Recovering.{Recovers};

use crate::image::read_image;
use crate::logs::{plan_for, read_logs};
use crate::pages::write_pages;
use ds_base::{Source, TableId};
use ds_disk::Disk;
use std::alloc::Global;
use table_copy::CopyFault;
use table_image_text::{image_fault, name_fault};

// From the bytes of an image.
fn recover_from<D: Disk>(
    alloc: Global,
    disk: &mut D,
    image: &[u8],
    table: TableId,
) -> Result<u64, CopyFault>
    ensures { Recovers table (record { contents = D.contents disk.old; disk_faults = D.faults disk.old; left = Some image.now; source_faults = 0 })
        (record { contents = D.contents disk.new; disk_faults = D.faults disk.new; left = Some image.now; source_faults = 0 }) result }
{
    match name_fault(image, table) {
        Some(at) => return Err(CopyFault::Image { at }),
        None => {}
    }
    let logs = read_logs(alloc, disk)?;
    let plan = plan_for(alloc, &logs)?;
    match image_fault(alloc, image, table, plan.greatest.lrsn)? {
        Some(at) => return Err(CopyFault::Image { at }),
        None => {}
    }
    write_pages(alloc, disk, image, table, plan.merged.records())
}

/// Makes each page of the table anew that the image holds or the logs name: it is taken from the image, or as zeros, the merged
/// records above its number are applied, and it is written. The answer is how many of these pages aren't all zeros.
///
/// The source is read to its end first; `Image` and `Source` leave the disk as it was. No page of the table is read from the
/// disk.
pub fn recover<D: Disk, S: Source>(
    alloc: Global,
    disk: &mut D,
    source: &mut S,
    table: TableId,
) -> Result<u64, CopyFault>
    ensures { Recovers table (record { contents = D.contents disk.old; disk_faults = D.faults disk.old; left = S.left source.old; source_faults = S.faults source.old })
        (record { contents = D.contents disk.new; disk_faults = D.faults disk.new; left = S.left source.new; source_faults = S.faults source.new }) result }
{
    let image = read_image(alloc, source)?;
    recover_from(alloc, disk, &image, table)
}
