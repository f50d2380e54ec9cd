//! How many pages the header pages of a table count.

ghost use Rattle.std.specs.Prelude.{◌≡◌};
ghost use Rattle.table_image_text.specs.Pages.{counted_to, counted_before, counted_in, pages_counted};

use crate::pages::VERSION_AT;
use ds_base::PageId;
use heap_space::last_page;
use index_leaf::next_page;
use page_format::{NotAPage, Page, PageKind};

// Where the number of the last page, or of the next free one, stands in a header page.
const NUMBER_AT: u16 = 32;

// The first free page of an index that was just formatted.
const FIRST_FREE: u32 = 3;

// The last page of a heap has a number behind it.
fn counted_to(last: u32) -> Result<u32, NotAPage>
    ensures { result ≡ counted_to last }
{
    if last < u32::MAX {
        Ok(last + 1)
    } else {
        Err(NotAPage { at: NUMBER_AT })
    }
}

// An index has its header, a branch and a leaf at least.
fn counted_before(next: u32) -> Result<u32, NotAPage>
    ensures { result ≡ counted_before next }
{
    if FIRST_FREE <= next && next < u32::MAX {
        Ok(next)
    } else {
        Err(NotAPage { at: NUMBER_AT })
    }
}

fn counted_in(kind: PageKind, page: &Page) -> Result<u32, NotAPage>
    ensures { result ≡ counted_in kind page.now }
{
    match kind {
        PageKind::HeapHeader => counted_to(last_page(page)),
        PageKind::IndexHeader => counted_before(next_page(page)),
        PageKind::Empty | PageKind::Heap | PageKind::Branch | PageKind::Leaf => Ok(0),
    }
}

/// How many pages, itself among them, the header page of this name counts, none where it is empty; or the first field that
/// can't stand there.
pub fn pages_counted(page: &Page, id: PageId) -> Result<u32, NotAPage>
    ensures { result ≡ pages_counted id page.now }
{
    let header = page.read_header(id)?;
    if page.is_old() {
        return Err(NotAPage { at: VERSION_AT });
    }
    counted_in(header.kind, page)
}
