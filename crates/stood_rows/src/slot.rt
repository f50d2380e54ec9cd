ghost use Rattle.std.specs.Prelude.{◌≡◌, ◌↔◌, ◌<◌, IsTrue, None};
ghost use Rattle.page_format.specs.Header.{slots_per_page};
ghost use Rattle.heap_space.specs.Slots.{said, content, slot_in, fault_in};
ghost use Rattle.stood_rows.specs.Standing.{same_value, says, StandsIn};

use ds_base::{Key, Value};
use heap_space::Slot;
use log_record::RowChange;
use page_format::Page;
use page_redo::{page_changed, row_fault};

fn same_value(row: Option<Value>, value: &[u8]) -> bool
    ensures { result ≡ same_value row value.now }
{
    match row {
        None => false,
        Some(row) => row.bytes() == value,
    }
}

fn says(slot: Slot<'_>, key: Key, row: Option<Value>) -> bool
    ensures { result ≡ says (said slot.entry) key row }
{
    match slot {
        Slot::Never => false,
        Slot::Absent { key: its } => its == key && row.is_none(),
        Slot::Present { key: its, value } => its == key && same_value(row, value),
    }
}

fn slot_says(page: &Page, slot: u16, key: Key, row: Option<Value>) -> bool
    requires slot { slot < slots_per_page }
    requires allowed { fault_in page.now slot ≡ None }
    ensures { result ≡ says (content (slot_in page.now slot)) key row }
{
    says(heap_space::row(page, slot), key, row)
}

/// Whether the slot of the change is there and the key's, and has the row before the change.
pub fn stands(page: &Page, change: &RowChange) -> bool
    ensures { IsTrue result ↔ StandsIn page.now change.now }
{
    let slot = change.place.slot;
    let id = page_changed(change);
    let fault = row_fault(page, id, slot, change.key);
    match fault {
        None => slot_says(page, slot, change.key, change.before),
        Some(_) => false,
    }
}
