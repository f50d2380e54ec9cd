//! Changes of rows in their slots.
ghost use Rattle.std.specs.Prelude.{◌≡◌, ◌≢◌, ◌<◌, None};
ghost use Rattle.ds_base.specs.Values.{IsValue};
ghost use Rattle.page_format.specs.Header.{slots_per_page};
ghost use Rattle.heap_space.specs.Slots.{fault_in, content, slot_in};
ghost use Rattle.page_plans.specs.Rows.{row_in, row_plan, undo_plan, after_row, Fits};

use crate::action::RowPlan;
use ds_base::{Key, Lrsn, Place, TableId, Value};
use ds_model::RowChange;
use heap_space::{Slot, row};
use page_format::{Page, SLOTS_PER_PAGE};
use page_redo::{inverse, row_fault};
use std::alloc::Global;

// The value of these bytes.
fn value_of(alloc: Global, bytes: &[u8]) -> Value
    requires { IsValue bytes.now }
    ensures { result ≡ bytes.now }
{
    let Ok(Some(value)) = Value::new(alloc, bytes) else {
        unreachable!()
    };
    value
}

// The row of a sound slot.
#[tactic(auto, using(crate::proofs::Slots::value_at))]
fn row_in(alloc: Global, page: &Page, slot: u16) -> Option<Value>
    requires slot { slot < slots_per_page }
    requires allowed { fault_in page.now slot ≡ None }
    ensures { result ≡ row_in (content (slot_in page.now slot)) }
{
    match row(page, slot) {
        Slot::Never | Slot::Absent { .. } => None,
        Slot::Present { value, .. } => Some(value_of(alloc, value)),
    }
}

/// What a change of the row of a key in its slot comes to over the page of the slot.
pub fn row_change(
    alloc: Global,
    table: TableId,
    key: Key,
    place: Place,
    after: Option<Value>,
    page: &Page,
) -> RowPlan
    ensures exact { result ≡ row_plan table key place after page.now }
    ensures fits { Fits result }
{
    if let Some(at) = row_fault(page, table.heap_page(place.page), place.slot, key) {
        return RowPlan::Fault { at: at as u32 };
    }
    RowPlan::Change(RowChange {
        table,
        key,
        place,
        before: row_in(alloc, page, place.slot),
        after,
    })
}

/// What taking a change of a row back comes to over the page of its slot. Which row stands there now isn't asked.
pub fn undo_change(change: &RowChange, page: &Page) -> RowPlan
    ensures exact { result ≡ undo_plan change.now page.now }
    ensures fits { Fits result }
{
    let id = change.table.heap_page(change.place.page);
    match row_fault(page, id, change.place.slot, change.key) {
        Some(at) => RowPlan::Fault { at: at as u32 },
        None => RowPlan::Change(inverse(change)),
    }
}

/// Writes the row after a change into its slot, and then the number of the change. A page has no slot past the last.
pub fn put_row(page: &mut Page, change: &RowChange, lrsn: Lrsn)
    ensures { page.new ≡ after_row lrsn change.now page.old }
{
    let slot = change.place.slot;
    if slot < SLOTS_PER_PAGE {
        page_redo::put_row(page, slot, change.key, change.after.as_ref(), lrsn);
    }
}
