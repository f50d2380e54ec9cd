ghost use Rattle.std.specs.Prelude.{◌≡◌, ◌↔◌, IfOk, IsTrue};
ghost use Rattle.page_chain.specs.Chains.{images_of};
ghost use Rattle.redone_pages.specs.Ranges.{HasTable, has_table};
ghost use Rattle.table_images.specs.Stands.{Stands};
ghost use Rattle.heap_rows.specs.Maps.{rows_in};
ghost use Rattle.heap_rows.specs.Left.{AreRowsOf};
ghost use Rattle.heap_rows.specs.Rows_left.{PageHas};
ghost use Rattle.index_places.specs.Whole.{IsHeapFound};

use ds_base::{NoMemory, PageId, TableId, Value};
use heap_rows::page_has;
use heap_space::last_page;
use page_format::Page;
use redone_pages::RedonePages;
use spot_map::SpotMap;
use std::alloc::Global;
use table_images::{heap_end, heap_page_stands};
use table_pages::given_in;

// Whether the page is right by itself, in a heap with this last page and so many slots given in it, and has the rows.
fn is_right(
    page: &Page,
    id: PageId,
    last: u32,
    given: u16,
    table: TableId,
    rows: &SpotMap<Value>,
) -> bool
    ensures { IsTrue result ↔ (Stands last given id page.now × PageHas (rows_in rows.now table) page.now) }
{
    if !heap_page_stands(page, id, last, given) {
        return false;
    }
    if id.number == 0 || last < id.number {
        return true;
    }
    page_has(page, id, table, rows)
}

/// The first page of the table's heap that isn't right by itself, or has a slot that was given with another row than the
/// records left.
///
/// It goes over the pages up to the last one that they change. Each takes time in the logarithm of the number of pages.
pub fn find_wrong_heap_page(
    alloc: Global,
    table: TableId,
    records: &RedonePages,
    rows: &SpotMap<Value>,
) -> Result<Option<PageId>, NoMemory>
    requires table { HasTable records.now.range table }
    requires rows { AreRowsOf (has_table records.now.range) records.now.records rows.now }
    ensures { IfOk result (λ found. IsHeapFound (images_of records.now.records) records.now.records table found) }
{
    let header = records.image(alloc, table.heap_page(0))?;
    let last = last_page(&header);
    let given = given_in(&header);
    for number in 0..heap_end(table, records, last) {
        let id = table.heap_page(number as u32);
        let page = records.image(alloc, id)?;
        if !is_right(&page, id, last, given, table, rows) {
            return Ok(Some(id));
        }
    }
    Ok(None)
}
