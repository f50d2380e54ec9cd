ghost use Rattle.std.specs.Prelude.{◌≡◌, ℕ, ◌<◌, ◌≤◌, ◌^◌, Bool, ◌↔◌, IsTrue};
ghost use Rattle.ds_base.specs.Pages.{index_set};
ghost use Rattle.page_chain.specs.Chains.{images_of};
ghost use Rattle.redone_pages.specs.Lasts.{last_in_records};
ghost use Rattle.disk_versions.specs.Ends.{end_of};
ghost use Rattle.table_images.specs.Nodes.{NodeStands, NodeStandsAt, last_node};

use crate::blank::is_blank;
use disk_versions::end_of;
use ds_base::{PageId, TableId};
use index_leaf::count;
use page_chain::chain_laws;
use page_format::Page;
use page_images::header_laws;
use redone_pages::RedonePages;
use table_pages::{is_index_header, is_node_page};

/// Whether the page is what it is to be by itself in an index that is formatted or isn't, and has this next free page. Where its
/// link and its entries lead isn't asked.
pub fn index_page_stands(page: &Page, id: PageId, formatted: bool, next: u32) -> bool
    ensures { IsTrue result ↔ NodeStands formatted next id page.now }
{
    if !formatted {
        return is_blank(page);
    }
    if id.number == 0 {
        return is_index_header(page, id);
    }
    if next <= id.number {
        return is_blank(page);
    }
    if 3 <= id.number && count(page) < 126 {
        return false;
    }
    is_node_page(page, id)
}

// The number of the last branch or leaf, at least 1.
fn last_node(next: u32) -> u32
    ensures { result ≡ last_node next }
{
    if next < 2 { 1 } else { next - 1 }
}

/// How many pages of the table's index, which has this next free page, are to be looked at behind the records, from page 0 on:
/// at least two, and all others are zeros.
pub fn index_end(table: TableId, records: &RedonePages, next: u32) -> u64
    ensures exact { result ≡ end_of (last_node next) (last_in_records (index_set table) 0 records.now.records) 0 }
    ensures bound { result ≤ 2 ^ 32 }
    ensures past { last_node next < result }
    ensures rest { (formatted : Bool) (n : ℕ) → result ≤ n → NodeStandsAt (images_of records.now.records) table formatted next n }
{
    chain_laws();
    header_laws();
    end_of(last_node(next), records.last(table.index_set()), 0)
}
