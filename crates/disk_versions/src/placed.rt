//! Whether the pages of some tables may stand on a disk.

ghost use Rattle.std.specs.Prelude.{◌≡◌, ◌↔◌, IsTrue};
ghost use Rattle.ds_disk.specs.Pages.{page_at};
ghost use Rattle.page_images.specs.Images.{Images};
ghost use Rattle.page_chain.specs.Chains.{IsVersion};
ghost use Rattle.page_versions.specs.Fronts.{has_header, IsPlaced};
ghost use Rattle.redone_pages.specs.Ranges.{HasPage};
ghost use Rattle.sound_disk.specs.Versions.{current};
ghost use Rattle.disk_versions.specs.Reading.{Reads};
ghost use Rattle.disk_versions.specs.Placing.{IsJudged};
ghost use Rattle.disk_versions.specs.Met.{AreMet};

use crate::met::{MetPages, renew_old};
use crate::page::{Judged, is_blank, is_zero, load};
use ds_base::PageId;
use ds_disk::{Disk, DiskError};
use page_chain::chain_laws;
use page_format::Page;

fn has_header(id: PageId, renews: bool, page: &Page) -> bool
    ensures { result ≡ has_header id renews page.now }
{
    page.read_header(id).is_ok() && (!page.is_old() || renews)
}

// Whether the page of the disk, in version 2, is one that the records made.
fn is_version(met: &MetPages, id: PageId, page: &Page) -> bool
    requires { HasPage met.now.made.range id }
    ensures { (at : Images) → AreMet at met.now → page.now ≡ current (at id) → (IsTrue result ↔ IsVersion id met.now.made.records page.now) }
{
    chain_laws();
    let mark = met.mark_of(id);
    match mark {
        Some(mark) => mark.is_met,
        None => is_zero(page),
    }
}

// Whether the page of the disk may stand there. It is left in version 2.
fn is_placed(met: &MetPages, id: PageId, renews: bool, page: &mut Page) -> bool
    requires { HasPage met.now.made.range id }
    ensures { (at : Images) → AreMet at met.now → page.old ≡ at id → (IsTrue result ↔ IsPlaced id met.now.made.records renews page.old) }
{
    let may_stand = has_header(id, renews, page);
    renew_old(page);
    may_stand && is_version(met, id, page)
}

/// Reads the page and tells of it.
pub fn judge<D: Disk>(
    disk: &mut D,
    met: &MetPages,
    id: PageId,
    renews: bool,
    page: &mut Page,
) -> Result<Judged, DiskError>
    requires { HasPage met.now.made.range id }
    ensures { Reads (D.contents disk.old) (D.contents disk.new) (D.faults disk.old) (D.faults disk.new) (λ j c. AreMet (page_at c.pages) met.now → IsJudged id met.now.made.records renews (page_at c.pages id) j) result }
{
    load(disk, id, page)?;
    let is_written = !is_blank(page);
    let is_placed = is_placed(met, id, renews, page);
    Ok(Judged {
        is_placed,
        is_written,
    })
}
