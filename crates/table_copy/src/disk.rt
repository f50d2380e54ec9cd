//! Pages of a disk.

ghost use Rattle.std.specs.Prelude.{◌≡◌, None};
ghost use Rattle.ds_disk.specs.Pages.{page_at};
ghost use Rattle.table_image_text.specs.Pages.{page_fault};
ghost use Rattle.ds_base.specs.declared.names.Volume.TheVariants as volume;
ghost use Rattle.table_copy.specs.declared.fault.CopyFault.TheVariants as fault;
ghost use Rattle.table_copy.specs.Looking.{Looks};
ghost use Rattle.table_copy.specs.Copying.{IsPageFault, CountsTo, IsCountFault};

use crate::CopyFault;
use ds_base::{PageId, Volume};
use ds_disk::Disk;
use page_format::Page;
use table_image_text::{page_fault, pages_counted};

fn damaged(id: PageId, at: u16) -> CopyFault
    ensures { result ≡ fault.Damaged (volume.Page id) at }
{
    CopyFault::Damaged {
        volume: Volume::Page(id),
        at: u64::from(at),
    }
}

fn load<D: Disk>(disk: &mut D, id: PageId, page: &mut Page) -> Result<(), CopyFault>
    ensures { Looks (D.contents disk.old) (D.contents disk.new) (D.faults disk.old) (D.faults disk.new) (λ _ c. page.new ≡ page_at c.pages id) (λ v at c. ⊥) result }
{
    disk.read_page(id, page.bytes_mut())?;
    Ok(())
}

/// Reads a page that may stand in an image.
pub fn read_page<D: Disk>(disk: &mut D, id: PageId, page: &mut Page) -> Result<(), CopyFault>
    ensures { Looks (D.contents disk.old) (D.contents disk.new) (D.faults disk.old) (D.faults disk.new) (λ _ c. (page.new ≡ page_at c.pages id) × (page_fault id page.new ≡ None)) (λ v at c. IsPageFault (page_at c.pages) id v at) result }
{
    load(disk, id, page)?;
    match page_fault(page, id) {
        Some(at) => Err(damaged(id, at)),
        None => Ok(()),
    }
}

/// How many pages the header page counts.
pub fn read_count<D: Disk>(disk: &mut D, id: PageId, page: &mut Page) -> Result<u32, CopyFault>
    ensures { Looks (D.contents disk.old) (D.contents disk.new) (D.faults disk.old) (D.faults disk.new) (λ count c. CountsTo (page_at c.pages) id count) (λ v at c. IsCountFault (page_at c.pages) id v at) result }
{
    load(disk, id, page)?;
    match pages_counted(page, id) {
        Ok(count) => Ok(count),
        Err(fault) => Err(damaged(id, fault.at)),
    }
}
