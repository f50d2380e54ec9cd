ghost use Rattle.std.specs.Prelude.{◌≡◌, ◌↔◌, ◌<◌, None, IsTrue};
ghost use Rattle.heap_space.specs.Slots.{said, fault_in};
ghost use Rattle.page_format.specs.Header.{slots_per_page};
ghost use Rattle.sound_disk.specs.Heaps.{IsRowPage};
ghost use Rattle.heap_rows.specs.Maps.{is_value, agrees, rows_in};
ghost use Rattle.heap_rows.specs.Rows_left.{SlotHas, PageHas};

use ds_base::{PageId, TableId, Value};
use heap_space::{Slot, row};
use page_format::Page;
use spot_map::SpotMap;
use table_pages::count_in;

fn is_value(row: Option<Value>, value: &[u8]) -> bool
    ensures { result ≡ is_value row value.now }
{
    match row {
        None => false,
        Some(row) => row.bytes() == value,
    }
}

fn agrees(slot: Slot<'_>, table: TableId, rows: &SpotMap<Value>) -> bool
    ensures { result ≡ agrees (rows_in rows.now table) (said slot.entry) }
{
    match slot {
        Slot::Never => true,
        Slot::Absent { key } => rows.get(table, key).is_none(),
        Slot::Present { key, value } => is_value(rows.get(table, key), value),
    }
}

fn slot_has(page: &Page, slot: u16, table: TableId, rows: &SpotMap<Value>) -> bool
    requires slot { slot < slots_per_page }
    requires allowed { fault_in page.now slot ≡ None }
    ensures { IsTrue result ↔ SlotHas (rows_in rows.now table) page.now slot }
{
    agrees(row(page, slot), table, rows)
}

/// Whether each slot that was given on a page of rows of the table has the row of its key.
pub fn page_has(page: &Page, id: PageId, table: TableId, rows: &SpotMap<Value>) -> bool
    requires { IsRowPage id page.now }
    ensures { IsTrue result ↔ PageHas (rows_in rows.now table) page.now }
{
    for slot in 0..count_in(page) {
        if !slot_has(page, slot, table, rows) {
            return false;
        }
    }
    true
}
