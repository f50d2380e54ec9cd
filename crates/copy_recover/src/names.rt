//! Which pages are written.

ghost use Rattle.std.specs.Prelude.{◌≡◌, ◌≤◌, length};
ghost use Rattle.page_versions.specs.Own.{places_at};
ghost use Rattle.table_image_text.specs.Image.{head_size};
ghost use Rattle.copy_recover.specs.Recovered.{is_held_of, is_more};

use ds_base::{PageId, TableId};
use page_records::PageRecords;
use table_image_text::{heap_pages, index_pages};

/// The places that the list has for the page.
pub fn places_at<'a>(id: PageId, pages: &'a [PageRecords]) -> &'a [usize]
    ensures { result.now ≡ places_at id pages.now }
{
    for own in pages {
        if own.page.is_same(id) {
            return own.places.as_slice();
        }
    }
    &[]
}

// One of so many pages of the set.
fn is_held_of(set: u16, count: u32, id: PageId) -> bool
    ensures { result ≡ is_held_of set count id }
{
    id.set == set && id.number < count
}

/// Whether the page is one of the table's that the image doesn't hold.
pub fn is_more(image: &[u8], table: TableId, id: PageId) -> bool
    requires { head_size ≤ length image.now }
    ensures { result ≡ is_more image.now table id }
{
    let is_held = is_held_of(table.heap_set(), heap_pages(image), id)
        || is_held_of(table.index_set(), index_pages(image), id);
    let is_of_table = id.set == table.heap_set() || id.set == table.index_set();
    is_of_table && !is_held
}
