//! Changes of rows in their slots.

ghost use Rattle.std.specs.Prelude.{◌≡◌, ◌<◌, ◌≤◌, ◌+◌, None, length, option_copied, Some, OnOk, OnErr, IsOk, IsErrOf, ◌↔◌};
ghost use Rattle.page_format.specs.Fields.{page_size, patched, set_lrsn};
ghost use Rattle.page_format.specs.Header.{slots_per_page};
ghost use Rattle.heap_space.specs.Layout.{slot_at};
ghost use Rattle.heap_space.specs.Slots.{fault_in, content, slot_in, image};
ghost use Rattle.heap_space.specs.Written.{after_patch};
ghost use Rattle.log_record.specs.Changes.{inverse};
ghost use Rattle.page_chain.specs.Chains.{row_patch};
ghost use Rattle.page_redo.specs.declared.fault.FieldFault.{FieldFault};
ghost use Rattle.page_redo.specs.Rows.{kind_fault, key_fault, row_fault, change_fault};

use crate::fault::FieldFault;
use ds_base::{Key, Lrsn, PageId, Value};
use ds_model::RowChange;
use heap_space::{Slot, row, slot_fault, slot_image};
use log_record::inverse;
use page_format::{Page, PageKind};

// Where the fields of a page stand.

const KIND_AT: u16 = 4;

const COUNT_AT: u16 = 26;

// Where the key stands in a slot.
const KEY_IN_SLOT: u16 = 8;

fn slot_at(slot: u16) -> u16
    requires { slot < slots_per_page }
    ensures { result ≡ slot_at slot }
{
    32 + 128 * slot
}

fn kind_fault(kind: PageKind) -> Option<u16>
    ensures { result ≡ kind_fault kind }
{
    match kind {
        PageKind::Heap => None,
        PageKind::Empty => Some(0),
        PageKind::HeapHeader | PageKind::IndexHeader | PageKind::Branch | PageKind::Leaf => {
            Some(KIND_AT)
        }
    }
}

// Where a sound slot shows that it doesn't belong to the key.
fn key_fault(page: &Page, slot: u16, key: Key) -> Option<u16>
    requires slot { slot < slots_per_page }
    requires allowed { fault_in page.now slot ≡ None }
    ensures { result ≡ key_fault key (slot_at slot) (content (slot_in page.now slot)) }
{
    let at = slot_at(slot);
    match row(page, slot) {
        Slot::Never => Some(at),
        Slot::Absent { key: its } | Slot::Present { key: its, .. } if its == key => None,
        Slot::Absent { .. } | Slot::Present { .. } => Some(at + KEY_IN_SLOT),
    }
}

/// The offset of the first field of the page of this name that can't stand there, where the key has its row in the slot:
/// the page is none of rows, the slot isn't given, has fields that can't stand there, or belongs to another key.
#[tactic(auto, using(crate::proofs::Slots::slots_of))]
pub fn row_fault(page: &Page, id: PageId, slot: u16, key: Key) -> Option<u16>
    ensures exact { result ≡ row_fault id slot key page.now }
    ensures slot { result ≡ None → slot < slots_per_page }
{
    let header = match page.read_header(id) {
        Ok(header) => header,
        Err(fault) => return Some(fault.at),
    };
    if let Some(at) = kind_fault(header.kind) {
        return Some(at);
    }
    if slot >= header.count {
        return Some(COUNT_AT);
    }
    if let Some(at) = slot_fault(page, slot) {
        return Some(at);
    }
    key_fault(page, slot, key)
}

/// Writes the row of a key into its slot, and then the version and the number of the change.
pub fn put_row(page: &mut Page, slot: u16, key: Key, value: Option<&Value>, lrsn: Lrsn)
    requires { slot < slots_per_page }
    ensures { page.new ≡ set_lrsn (patched page.old (slot_at slot) (image key (option_copied value.entry))) lrsn }
{
    page.write(slot_at(slot) as usize, &slot_image(key, value), lrsn);
}

/// Makes a row change in its page, or tells the first field in the way and leaves the page as it is.
pub fn change_row(
    page: &mut Page,
    id: PageId,
    change: &RowChange,
    lrsn: Lrsn,
) -> Result<(), FieldFault>
    ensures done { IsOk result ↔ (change_fault id change.now page.old ≡ None) }
    ensures fault { (f : FieldFault) → IsErrOf result f → change_fault id change.now page.old ≡ Some f.at }
    ensures ok { OnOk result (page.new ≡ after_patch lrsn page.old (row_patch change.now)) }
    ensures err { OnErr result (page.new ≡ page.old) }
{
    let slot = change.place.slot;
    if let Some(at) = row_fault(page, id, slot, change.key) {
        return Err(FieldFault { at });
    }
    put_row(page, slot, change.key, change.after.as_ref(), lrsn);
    Ok(())
}

/// Takes a row change back in its page: its slot gets the row before the change, and the page this number. Where a field
/// is in the way, the page stays as it is.
pub fn undo_row(
    page: &mut Page,
    id: PageId,
    change: &RowChange,
    lrsn: Lrsn,
) -> Result<(), FieldFault>
    ensures done { IsOk result ↔ (change_fault id change.now page.old ≡ None) }
    ensures fault { (f : FieldFault) → IsErrOf result f → change_fault id change.now page.old ≡ Some f.at }
    ensures ok { OnOk result (page.new ≡ after_patch lrsn page.old (row_patch (inverse change.now))) }
    ensures err { OnErr result (page.new ≡ page.old) }
{
    change_row(page, id, &inverse(change), lrsn)
}
