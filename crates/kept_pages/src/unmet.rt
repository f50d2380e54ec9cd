ghost use Rattle.std.specs.Prelude.{◌≡◌};
ghost use Rattle.ds_disk.specs.Pages.{page_at};
ghost use Rattle.kept_checkpoints.specs.Needs.{is_met};
ghost use Rattle.kept_pages.specs.Exact.{Judges};
ghost use Rattle.kept_pages.specs.Reading.{Reads};
ghost use Rattle.kept_pages.specs.Unmet.{IsSeen};

use crate::first::{is_seen, judged_with, meets};
use ds_base::PageId;
use ds_disk::{Disk, DiskError};
use kept_checkpoints::Need;
use page_format::Page;

fn load<D: Disk>(disk: &mut D, page: &mut Page, id: PageId) -> Result<(), DiskError>
    ensures { Reads (D.contents disk.old) (D.contents disk.new) (D.faults disk.old) (D.faults disk.new) (λ _ c. page.new ≡ page_at c.pages id) result }
{
    disk.read_page(id, page.bytes_mut())?;
    Ok(())
}

// Reads the page, where it isn't the one that was seen last.
#[tactic(auto, using(crate::proofs::Told::seen_told, crate::proofs::Told::read_told))]
fn look<D: Disk>(
    disk: &mut D,
    page: &mut Page,
    seen: Option<PageId>,
    id: PageId,
) -> Result<(), DiskError>
    ensures { Reads (D.contents disk.old) (D.contents disk.new) (D.faults disk.old) (D.faults disk.new) (λ _ c. IsSeen (page_at c.pages) seen page.old → page.new ≡ page_at c.pages id) result }
{
    if is_seen(seen, id) {
        return Ok(());
    }
    load(disk, page, id)
}

#[tactic(auto, using(crate::proofs::Told::met_told))]
fn is_met<D: Disk>(
    disk: &mut D,
    page: &mut Page,
    seen: Option<PageId>,
    need: &Need,
) -> Result<bool, DiskError>
    ensures { Reads (D.contents disk.old) (D.contents disk.new) (D.faults disk.old) (D.faults disk.new) (λ b c. IsSeen (page_at c.pages) seen page.old → (b ≡ is_met (page_at c.pages) need.now) × (page.new ≡ page_at c.pages need.now.page)) result }
{
    look(disk, page, seen, need.page)?;
    Ok(meets(page, need))
}

/// The first page that doesn't meet a need so far, with these needs more, which are looked at in their order; a page that comes again
/// at once is read once.
pub fn judge_more<D: Disk>(
    disk: &mut D,
    page: &mut Page,
    first: Option<PageId>,
    needs: &[Need],
) -> Result<Option<PageId>, DiskError>
    ensures { Reads (D.contents disk.old) (D.contents disk.new) (D.faults disk.old) (D.faults disk.new) (λ found c. Judges (page_at c.pages) first found needs.now) result }
{
    let mut found = first;
    let mut seen = None;
    for need in needs {
        let met = is_met(disk, page, seen, need)?;
        found = judged_with(met, found, need.page);
        seen = Some(need.page);
    }
    Ok(found)
}
