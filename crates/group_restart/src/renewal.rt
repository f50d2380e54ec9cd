ghost use Rattle.std.specs.Prelude.{◌≡◌};
ghost use Rattle.group_restart.specs.Renewal.{first_page, last_of_heap, last_of_index, last_by_kind, last_before, last_behind, page_behind};

use ds_base::PageId;
use heap_space::last_page;
use index_leaf::next_page;
use page_format::{NotAPage, Page, PageKind};

// The page sets of a group are numbered from 1 to this.
const PAGE_SETS: u16 = 128;

// Where the number of the last page, or of the next free one, stands in a header page.
const NUMBER_AT: u16 = 32;

// The first free page of an index that was just formatted.
const FIRST_FREE: u32 = 3;

/// The header page of the first page set.
pub fn first_page() -> PageId
    ensures { result ≡ first_page }
{
    PageId { set: 1, number: 0 }
}

// A page may follow the last one of a heap.
fn last_of_heap(last: u32) -> Result<u32, NotAPage>
    ensures { result ≡ last_of_heap last }
{
    if last < u32::MAX {
        Ok(last)
    } else {
        Err(NotAPage { at: NUMBER_AT })
    }
}

// An index has its header, a branch and a leaf at least.
fn last_of_index(next: u32) -> Result<u32, NotAPage>
    ensures { result ≡ last_of_index next }
{
    if FIRST_FREE <= next && next < u32::MAX {
        Ok(next - 1)
    } else {
        Err(NotAPage { at: NUMBER_AT })
    }
}

fn last_by_kind(last: u32, kind: PageKind, page: &Page) -> Result<u32, NotAPage>
    ensures { result ≡ last_by_kind last kind page.now }
{
    match kind {
        PageKind::HeapHeader => last_of_heap(last_page(page)),
        PageKind::IndexHeader => last_of_index(next_page(page)),
        PageKind::Empty | PageKind::Heap | PageKind::Branch | PageKind::Leaf => Ok(last),
    }
}

fn last_before(last: u32, id: PageId) -> u32
    ensures { result ≡ last_before last id }
{
    if id.number == 0 { 0 } else { last }
}

/// The last page of the set that its header page counts, once the page of this name is read, or the first field that can't
/// stand there. Nothing follows a header page that was never written.
pub fn last_behind(last: u32, id: PageId, page: &Page) -> Result<u32, NotAPage>
    ensures { result ≡ last_behind last id page.now }
{
    let header = page.read_header(id)?;
    last_by_kind(last_before(last, id), header.kind, page)
}

/// The page that is read behind this one, of the same page set up to its last page, or of the next one.
pub fn page_behind(last: u32, id: PageId) -> Option<PageId>
    ensures { result ≡ page_behind last id }
{
    if id.number < last {
        return Some(PageId {
            set: id.set,
            number: id.number + 1,
        });
    }
    if id.set < PAGE_SETS {
        return Some(PageId {
            set: id.set + 1,
            number: 0,
        });
    }
    None
}
