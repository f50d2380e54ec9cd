ghost use Rattle.std.specs.Prelude.{◌≡◌, ◌≤◌, ◌^◌};
ghost use Rattle.page_format.specs.Header.{header_of};
ghost use Rattle.index_leaf.specs.Changes.{next_page_of};
ghost use Rattle.disk_versions.specs.Ends.{last_of_kind, last_by_header, end_of};

use ds_base::PageId;
use heap_space::last_page;
use index_leaf::next_page;
use page_format::{Page, PageKind};

/// How many pages behind the last one of a page set are read, and must be zeros.
pub const BEHIND: u32 = 1024;

fn last_of_kind(kind: PageKind, page: &Page) -> u32
    ensures { result ≡ last_of_kind kind page.now }
{
    match kind {
        PageKind::HeapHeader => last_page(page),
        PageKind::IndexHeader => next_page(page).saturating_sub(1),
        PageKind::Empty | PageKind::Heap | PageKind::Branch | PageKind::Leaf => 0,
    }
}

/// The last page of its set that a header page names, or 0.
pub fn last_by_header(page: &Page, id: PageId) -> u32
    ensures { result ≡ last_by_header (header_of page.now id) page.now }
{
    match page.read_header(id) {
        Ok(header) => last_of_kind(header.kind, page),
        Err(_) => 0,
    }
}

/// How many pages are read of a set whose header and whose records name these as the last ones.
pub fn end_of(by_header: u32, by_records: u32, behind: u32) -> u64
    ensures exact { result ≡ end_of by_header by_records behind }
    ensures bound { result ≤ 2 ^ 32 }
{
    let last = if by_header < by_records {
        by_records
    } else {
        by_header
    };
    let end = u64::from(last) + u64::from(behind) + 1;
    if end < 1 << 32 { end } else { 1 << 32 }
}
