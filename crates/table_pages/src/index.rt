ghost use Rattle.std.specs.Prelude.{◌≡◌, ◌↔◌, IsTrue};
ghost use Rattle.sound_disk.specs.Indexes.{IsIndexHeader};
ghost use Rattle.table_pages.specs.Indexes.{is_next, is_index_header};

use crate::bytes::{has_clean_header, has_kind, rest_is_zeros};
use ds_base::PageId;
use index_leaf::next_page;
use page_format::{Page, PageKind};

fn is_next(number: u32) -> bool
    ensures { result ≡ is_next number }
{
    3 <= number && number < u32::MAX
}

fn test_header(page: &Page, id: PageId) -> bool
    ensures { result ≡ is_index_header id page.now }
{
    has_kind(page, id, PageKind::IndexHeader)
        && has_clean_header(page)
        && is_next(next_page(page))
        && rest_is_zeros(page, 36)
}

/// Whether the page is the header page of an index, and right.
pub fn is_index_header(page: &Page, id: PageId) -> bool
    ensures { IsTrue result ↔ IsIndexHeader id page.now }
{
    test_header(page, id)
}
