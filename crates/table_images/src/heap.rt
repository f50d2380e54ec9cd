ghost use Rattle.std.specs.Prelude.{◌≡◌, ℕ, ◌<◌, ◌≤◌, ◌^◌, ◌↔◌, IsTrue};
ghost use Rattle.ds_base.specs.Pages.{heap_set};
ghost use Rattle.page_chain.specs.Chains.{images_of};
ghost use Rattle.redone_pages.specs.Lasts.{last_in_records};
ghost use Rattle.disk_versions.specs.Ends.{end_of};
ghost use Rattle.table_images.specs.Stands.{Stands, StandsAt};

use crate::blank::is_blank;
use disk_versions::end_of;
use ds_base::{PageId, TableId};
use page_chain::chain_laws;
use page_format::Page;
use page_images::header_laws;
use redone_pages::RedonePages;
use table_pages::{count_in, is_heap_header, is_row_page};

/// Whether the page is what it is to be in a heap with this last page and so many slots given in it.
pub fn heap_page_stands(page: &Page, id: PageId, last: u32, given: u16) -> bool
    ensures { IsTrue result ↔ Stands last given id page.now }
{
    if id.number == 0 {
        return is_blank(page) || is_heap_header(page, id);
    }
    if last < id.number {
        return is_blank(page);
    }
    if id.number == last && count_in(page) != given {
        return false;
    }
    is_row_page(page, id)
}

/// How many pages of the table's heap, which has this last page, are to be looked at behind the records, from page 0 on: all
/// others are zeros.
pub fn heap_end(table: TableId, records: &RedonePages, last: u32) -> u64
    ensures exact { result ≡ end_of last (last_in_records (heap_set table) 0 records.now.records) 0 }
    ensures bound { result ≤ 2 ^ 32 }
    ensures past { last < result }
    ensures rest { (given n : ℕ) → result ≤ n → StandsAt (images_of records.now.records) table last given n }
{
    chain_laws();
    header_laws();
    end_of(last, records.last(table.heap_set()), 0)
}
