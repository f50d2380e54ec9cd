ghost use Rattle.std.specs.Prelude.{◌≡◌, ◌↔◌, IsTrue};
ghost use Rattle.ds_disk.specs.Answers.{Answers, HasCause};
ghost use Rattle.ds_disk.specs.Contents.{Same};
ghost use Rattle.ds_disk.specs.Pages.{page_at};
ghost use Rattle.page_format.specs.Header.{is_zeros};
ghost use Rattle.page_images.specs.Images.{zeros};

use ds_base::PageId;
use ds_disk::{Disk, DiskError};
use page_format::Page;

/// Reads the page from the disk.
pub fn load<D: Disk>(disk: &mut D, id: PageId, page: &mut Page) -> Result<(), DiskError>
    ensures answers { Answers (D.alive disk.old) (D.alive disk.new) (D.contents disk.old) (D.contents disk.new) result (λ _ c d. (d ≡ c) × (page.new ≡ page_at c.pages id)) Same }
    ensures cause { HasCause (D.faults disk.old) (D.faults disk.new) result }
{
    disk.read_page(id, page.bytes_mut())?;
    Ok(())
}

/// Whether all its bytes are zeros.
pub fn is_blank(page: &Page) -> bool
    ensures { result ≡ is_zeros page.now }
{
    page.bytes().iter().all(|byte| *byte == 0)
}

/// Whether the page is one that was never written.
#[tactic(auto, using(crate::proofs::Pages::blank_is))]
pub fn is_zero(page: &Page) -> bool
    ensures { IsTrue result ↔ (page.now ≡ zeros) }
{
    let _bytes = page.bytes();
    is_blank(page)
}

/// What is found of a page: whether it may stand there, and whether it is more than zeros.
#[derive(Clone, Copy, Debug)]
pub struct Judged {
    pub is_placed: bool,
    pub is_written: bool,
}
