//! The copy of a table.

ghost use Rattle.std.specs.Prelude.{◌≡◌, ◌+◌, ◌≤◌, ◌<◌, ◌^◌};
ghost use Rattle.ds_disk.specs.Pages.{page_at};
ghost use Rattle.table_image_text.specs.Image.{pages_bytes, image_with};
ghost use Rattle.table_copy.specs.Copying.{Copies, IsPageFault, MayBeCopied, AreCopied, HasPageFault, CopiesTable};

use crate::CopyFault;
use crate::disk::{read_count, read_page};
use crate::sink::{give, give_head};
use ds_base::{Lrsn, PageId, Sink, TableId};
use ds_disk::Disk;
use page_format::Page;
use std::alloc::Global;
use table_image_text::page_name;

fn copy_page<D: Disk, K: Sink>(
    disk: &mut D,
    sink: &mut K,
    page: &mut Page,
    id: PageId,
) -> Result<(), CopyFault>
    ensures { Copies (record { contents = D.contents disk.old; disk_faults = D.faults disk.old; taken = K.taken sink.old; sink_faults = K.faults sink.old })
        (record { contents = D.contents disk.new; disk_faults = D.faults disk.new; taken = K.taken sink.new; sink_faults = K.faults sink.new })
        (λ c. page_at c.pages id) (λ _ c. MayBeCopied (page_at c.pages) id) (λ v at c. IsPageFault (page_at c.pages) id v at) result }
{
    read_page(disk, id, page)?;
    give(sink, page.bytes())
}

// So many pages of a table whose heap has these.
fn copy_pages<D: Disk, K: Sink>(
    disk: &mut D,
    sink: &mut K,
    page: &mut Page,
    table: TableId,
    heap: u32,
    count: u64,
) -> Result<(), CopyFault>
    requires { count ≤ heap + 2 ^ 32 }
    ensures { Copies (record { contents = D.contents disk.old; disk_faults = D.faults disk.old; taken = K.taken sink.old; sink_faults = K.faults sink.old })
        (record { contents = D.contents disk.new; disk_faults = D.faults disk.new; taken = K.taken sink.new; sink_faults = K.faults sink.new })
        (λ c. pages_bytes (page_at c.pages) table heap count) (λ _ c. AreCopied (page_at c.pages) table heap count) (λ v at c. HasPageFault (page_at c.pages) table heap count v at) result }
{
    for n in 0..count {
        copy_page(disk, sink, page, page_name(table, heap, n))?;
    }
    Ok(())
}

// An image with so many pages.
fn write_counted<D: Disk, K: Sink>(
    alloc: Global,
    disk: &mut D,
    sink: &mut K,
    page: &mut Page,
    table: TableId,
    lrsn: Lrsn,
    heap: u32,
    index: u32,
) -> Result<u64, CopyFault>
    ensures { Copies (record { contents = D.contents disk.old; disk_faults = D.faults disk.old; taken = K.taken sink.old; sink_faults = K.faults sink.old })
        (record { contents = D.contents disk.new; disk_faults = D.faults disk.new; taken = K.taken sink.new; sink_faults = K.faults sink.new })
        (λ c. image_with (page_at c.pages) table lrsn heap index) (λ count c. (count ≡ heap + index) × AreCopied (page_at c.pages) table heap count) (λ v at c. HasPageFault (page_at c.pages) table heap (heap + index) v at) result }
{
    let count = u64::from(heap) + u64::from(index);
    give_head(alloc, sink, table, lrsn, heap, index)?;
    copy_pages(disk, sink, page, table, heap, count)?;
    Ok(count)
}

/// Writes an image of the table to the sink, with this number (LRSN), and answers how many pages stand in it.
///
/// The pages are read one at a time, and stay as they are. `Damaged` names the first field that can't stand in an image: of a
/// header page, whose numbers say how many pages there are, or of one of these pages. Whatever the fault, the sink has taken a
/// front of the image.
pub fn write_image<D: Disk, K: Sink>(
    alloc: Global,
    disk: &mut D,
    sink: &mut K,
    table: TableId,
    lrsn: Lrsn,
) -> Result<u64, CopyFault>
    ensures { CopiesTable table lrsn (record { contents = D.contents disk.old; disk_faults = D.faults disk.old; taken = K.taken sink.old; sink_faults = K.faults sink.old })
        (record { contents = D.contents disk.new; disk_faults = D.faults disk.new; taken = K.taken sink.new; sink_faults = K.faults sink.new }) result }
{
    let mut page = Page::zero(alloc)?;
    let heap = read_count(disk, table.heap_page(0), &mut page)?;
    let index = read_count(disk, table.index_page(0), &mut page)?;
    write_counted(alloc, disk, sink, &mut page, table, lrsn, heap, index)
}
