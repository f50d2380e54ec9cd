//! Pages that are brought forward and written.

ghost use Rattle.std.specs.Prelude.{◌≡◌, ◌+◌, ◌<◌, cond, IfOk};
ghost use Rattle.page_format.specs.Header.{is_zeros};
ghost use Rattle.page_images.specs.Images.{zeros};
ghost use Rattle.page_records.specs.Places.{by_page};
ghost use Rattle.page_redo.specs.Forward.{brought_forward};
ghost use Rattle.table_image_text.specs.Image.{heap_in, index_in, page_name};
ghost use Rattle.copy_recover.specs.Recovered.{taken_from, more_names, written_names};
ghost use Rattle.copy_recover.specs.Writing.{IsImage, held_names, Puts, WritesPage, Writes};

use crate::names::{is_more, places_at};
use ds_base::{NoMemory, PageId, TableId, Volume};
use ds_disk::{Disk, DiskError};
use ds_model::LogRecord;
use page_format::Page;
use page_records::{PageRecords, by_page};
use page_redo::{FieldFault, forward_laws};
use places_redo::bring_places;
use std::alloc::Global;
use table_copy::CopyFault;
use table_image_text::{heap_pages, index_pages, load_page, page_name};

// Applies the records to the page of this name. `changed` are the pages that they change.
fn bring(
    page: &mut Page,
    id: PageId,
    records: &[LogRecord],
    changed: &[PageRecords],
) -> Result<bool, FieldFault>
    requires { changed.now ≡ by_page records.now }
    ensures outcome { result ≡ (brought_forward id page.old records.now).outcome }
    ensures page { page.new ≡ (brought_forward id page.old records.now).page }
{
    forward_laws();
    bring_places(page, id, records, places_at(id, changed))
}

fn is_blank(page: &Page) -> bool
    ensures { result ≡ is_zeros page.now }
{
    page.bytes().iter().all(|byte| *byte == 0)
}

fn put<D: Disk>(disk: &mut D, id: PageId, page: &Page) -> Result<(), CopyFault>
    ensures { Puts (D.contents disk.old) (D.contents disk.new) (D.faults disk.old) (D.faults disk.new) id page.now result }
{
    match disk.write_page(id, page.bytes()) {
        Ok(()) => Ok(()),
        Err(DiskError::Failed) => Err(CopyFault::Disk),
        Err(DiskError::NoMemory) => Err(CopyFault::NoMemory),
    }
}

// Brings the page forward and writes it, and tells whether it isn't all zeros.
fn write_page<D: Disk>(
    disk: &mut D,
    page: &mut Page,
    id: PageId,
    records: &[LogRecord],
    changed: &[PageRecords],
) -> Result<bool, CopyFault>
    requires { changed.now ≡ by_page records.now }
    ensures { WritesPage (D.contents disk.old) (D.contents disk.new) (D.faults disk.old) (D.faults disk.new) id (brought_forward id page.old records.now) result }
{
    match bring(page, id, records, changed) {
        Ok(_) => {
            put(disk, id, page)?;
            Ok(!is_blank(page))
        }
        Err(fault) => Err(CopyFault::Damaged {
            volume: Volume::Page(id),
            at: u64::from(fault.at),
        }),
    }
}

// No table has so many pages that a number of 64 bits doesn't hold their count.
fn count_with(count: u64, is_some: bool) -> Result<u64, NoMemory>
    ensures { IfOk result (λ n. n ≡ count + cond is_some 1 0) }
{
    count.checked_add(u64::from(is_some)).ok_or(NoMemory)
}

// Fills the page with that at this place of the image, and tells its name.
fn load_held(page: &mut Page, image: &[u8], table: TableId, n: u64) -> PageId
    requires image { IsImage image.now }
    requires below { n < heap_in image.now + index_in image.now }
    ensures name { result ≡ page_name table (heap_in image.now) n }
    ensures page { page.new ≡ taken_from image.now table result }
{
    // The page sets of a heap and of an index differ, since tables are numbered from 1.
    let number = table.number();
    prove!(number > 0);
    let heap = heap_pages(image);
    let count = u64::from(heap) + u64::from(index_pages(image));
    prove!(n < count);
    load_page(page, image, n);
    page_name(table, heap, n)
}

// The pages of the image.
fn write_held<D: Disk>(
    alloc: Global,
    disk: &mut D,
    image: &[u8],
    table: TableId,
    records: &[LogRecord],
    changed: &[PageRecords],
) -> Result<u64, CopyFault>
    requires image { IsImage image.now }
    requires changed_pages { changed.now ≡ by_page records.now }
    ensures { Writes (D.contents disk.old) (D.contents disk.new) (D.faults disk.old) (D.faults disk.new) image.now table records.now (held_names image.now table) result }
{
    let mut page = Page::zero(alloc)?;
    let heap = u64::from(heap_pages(image));
    let count = heap + u64::from(index_pages(image));
    let mut some = 0;
    for n in 0..count {
        let id = load_held(&mut page, image, table, n);
        let is_some = write_page(disk, &mut page, id, records, changed)?;
        some = count_with(some, is_some)?;
    }
    Ok(some)
}

// A page that only the records name.
fn write_more<D: Disk>(
    alloc: Global,
    disk: &mut D,
    id: PageId,
    records: &[LogRecord],
    changed: &[PageRecords],
) -> Result<bool, CopyFault>
    requires { changed.now ≡ by_page records.now }
    ensures { WritesPage (D.contents disk.old) (D.contents disk.new) (D.faults disk.old) (D.faults disk.new) id (brought_forward id zeros records.now) result }
{
    let mut page = Page::zero(alloc)?;
    write_page(disk, &mut page, id, records, changed)
}

// The pages of the table that only the records name.
fn write_rest<D: Disk>(
    alloc: Global,
    disk: &mut D,
    image: &[u8],
    table: TableId,
    records: &[LogRecord],
    changed: &[PageRecords],
) -> Result<u64, CopyFault>
    requires image { IsImage image.now }
    requires changed_pages { changed.now ≡ by_page records.now }
    ensures { Writes (D.contents disk.old) (D.contents disk.new) (D.faults disk.old) (D.faults disk.new) image.now table records.now (more_names image.now table changed.now) result }
{
    let mut some = 0;
    for own in changed {
        if !is_more(image, table, own.page) {
            continue;
        }
        let is_some = write_more(alloc, disk, own.page, records, changed)?;
        some = count_with(some, is_some)?;
    }
    Ok(some)
}

fn sum(a: u64, b: u64) -> Result<u64, NoMemory>
    ensures { IfOk result (λ n. n ≡ a + b) }
{
    a.checked_add(b).ok_or(NoMemory)
}

/// Writes all pages of the image, and those of the table that the records name, each brought forward by the records. The answer
/// is how many of them aren't all zeros.
pub fn write_pages<D: Disk>(
    alloc: Global,
    disk: &mut D,
    image: &[u8],
    table: TableId,
    records: &[LogRecord],
) -> Result<u64, CopyFault>
    requires { IsImage image.now }
    ensures { Writes (D.contents disk.old) (D.contents disk.new) (D.faults disk.old) (D.faults disk.new) image.now table records.now (written_names image.now table records.now) result }
{
    let changed = by_page(alloc, records)?;
    let changed = changed.as_slice();
    let held = write_held(alloc, disk, image, table, records, changed)?;
    let more = write_rest(alloc, disk, image, table, records, changed)?;
    Ok(sum(held, more)?)
}
