ghost use Rattle.std.specs.Prelude.{◌≡◌, IfOk};
ghost use Rattle.page_chain.specs.Chains.{images_of};
ghost use Rattle.redone_pages.specs.Ranges.{HasTable, has_table};
ghost use Rattle.heap_rows.specs.Left.{AreRowsOf};
ghost use Rattle.index_places.specs.Whole.{IsTableTold, IsRangeTold};

use crate::heap::find_wrong_heap_page;
use crate::index::find_wrong_index_page;
use crate::slots::given_in;
use ds_base::{NoMemory, PageId, TableId, Value};
use index_links::linked_laws;
use page_chain::chain_laws;
use page_images::header_laws;
use redone_pages::RedonePages;
use spot_map::SpotMap;
use std::alloc::Global;
use table_images::stands_laws;

/// The page that is named of the table after the records, if it isn't whole.
///
/// It is the first of its heap that isn't right, by itself or in its rows; and where there is none, the first of its index.
pub fn find_unwhole_page(
    alloc: Global,
    table: TableId,
    records: &RedonePages,
    rows: &SpotMap<Value>,
) -> Result<Option<PageId>, NoMemory>
    requires table { HasTable records.now.range table }
    requires rows { AreRowsOf (has_table records.now.range) records.now.records rows.now }
    ensures { IfOk result (λ found. IsTableTold (images_of records.now.records) records.now.records table found) }
{
    stands_laws();
    linked_laws();
    chain_laws();
    header_laws();
    if let Some(id) = find_wrong_heap_page(alloc, table, records, rows)? {
        return Ok(Some(id));
    }
    let given = given_in(alloc, table, records)?;
    find_wrong_index_page(alloc, table, records, given)
}

/// The page of the first table of those whose pages are made that isn't whole after the records, as `find_unwhole_page` names it.
pub fn find_unwhole(
    alloc: Global,
    records: &RedonePages,
    rows: &SpotMap<Value>,
) -> Result<Option<PageId>, NoMemory>
    requires { AreRowsOf (has_table records.now.range) records.now.records rows.now }
    ensures { IfOk result (λ found. IsRangeTold (images_of records.now.records) records.now.records records.now.range found) }
{
    let range = records.range();
    for number in range.first.number()..range.last.number() + 1 {
        let Some(table) = TableId::new(number) else {
            unreachable!()
        };
        if let Some(id) = find_unwhole_page(alloc, table, records, rows)? {
            return Ok(Some(id));
        }
    }
    Ok(None)
}
