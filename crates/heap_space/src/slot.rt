ghost use Rattle.std.specs.Prelude.{◌≡◌, ◌<◌, ◌≤◌, true, length, slice_index, is_none};
ghost use Rattle.page_format.specs.Header.{slots_per_page, is_zeros};
ghost use Rattle.std.specs.List.{list_all};
ghost use Rattle.heap_space.specs.Layout.{slot_size, slot_at};
ghost use Rattle.heap_space.specs.Slots.{slot_in, value_in, content, said, is_value_byte, may_be_length, fault_in};

use crate::layout::{ABSENT, KEY_AT, LENGTH_AT, NEVER, PRESENT, SLOT_SIZE, STATE_AT, VALUE_AT};
use byteorder::{BigEndian, ByteOrder};
use ds_base::{Key, VALUE_LIMIT};
use page_format::Page;

/// What a slot says of its row.
#[derive(Clone, Copy, Debug, PartialEq, Eq)]
pub enum Slot<'a> {
    /// It was never given.
    Never,
    /// It belongs to this key, of which there is no row.
    Absent { key: Key },
    /// The row of this key, and its value's bytes.
    Present { key: Key, value: &'a [u8] },
}

/// Where the slot of this number begins in its page.
pub fn slot_at(slot: u16) -> usize
    requires { slot < slots_per_page }
    ensures { result ≡ slot_at slot }
{
    32 + SLOT_SIZE * slot as usize
}

fn slot_in(page: &Page, slot: u16) -> &[u8]
    requires { slot < slots_per_page }
    ensures bytes { result.now ≡ slot_in page.now slot }
    ensures whole { length result.now ≡ slot_size }
{
    let at = slot_at(slot);
    &page.bytes()[at..at + SLOT_SIZE]
}

fn value_in(bytes: &[u8]) -> &[u8]
    requires whole { length bytes.now ≡ slot_size }
    requires short { slice_index bytes.now 1 ≤ 100 }
    ensures { result.now ≡ value_in bytes.now }
{
    &bytes[VALUE_AT..VALUE_AT + bytes[LENGTH_AT] as usize]
}

// Whether all the bytes are zeros.
fn is_zeros(bytes: &[u8]) -> bool
    ensures { result ≡ is_zeros bytes.now }
{
    bytes.iter().all(|byte| *byte == 0)
}

fn are_value_bytes(bytes: &[u8]) -> bool
    ensures { result ≡ list_all is_value_byte bytes.now }
{
    bytes.iter().all(|byte| 0x21 <= *byte && *byte <= 0x7e)
}

// Whether a slot of this state may have a value of so many bytes.
fn may_be_length(state: u8, length: u8) -> bool
    ensures exact { result ≡ may_be_length state length }
    ensures short { result ≡ true → length ≤ 100 }
{
    if state == PRESENT {
        length as usize <= VALUE_LIMIT
    } else {
        length == 0
    }
}

/// The offset in the page of the first field that the slot can't have, or `None` where all its fields may stand.
#[tactic(auto, unfolding(crate::specs::Slots::fault_in))]
pub fn slot_fault(page: &Page, slot: u16) -> Option<u16>
    requires { slot < slots_per_page }
    ensures exact { result ≡ fault_in page.now slot }
    ensures short { result ≡ None → slice_index (slot_in page.now slot) 1 ≤ 100 }
{
    let at = slot_at(slot) as u16;
    let bytes = slot_in(page, slot);
    let length = bytes[LENGTH_AT];
    if bytes[STATE_AT] > PRESENT {
        Some(at)
    } else if !may_be_length(bytes[STATE_AT], length) {
        Some(at + LENGTH_AT as u16)
    } else if !is_zeros(&bytes[2..8]) {
        Some(at + 2)
    } else if !are_value_bytes(value_in(bytes)) {
        Some(at + VALUE_AT as u16)
    } else if !is_zeros(&bytes[VALUE_AT + length as usize..]) {
        Some(at + VALUE_AT as u16 + length as u16)
    } else {
        None
    }
}

/// Whether all the fields of the slot may stand there.
pub fn slot_is_allowed(page: &Page, slot: u16) -> bool
    requires { slot < slots_per_page }
    ensures exact { result ≡ is_none (fault_in page.now slot) }
    ensures short { result ≡ true → slice_index (slot_in page.now slot) 1 ≤ 100 }
{
    slot_fault(page, slot).is_none()
}

/// What the slot says of its row.
pub fn row(page: &Page, slot: u16) -> Slot<'_>
    requires slot { slot < slots_per_page }
    requires allowed { fault_in page.now slot ≡ None }
    ensures { said result ≡ content (slot_in page.now slot) }
{
    prove!(slot_is_allowed(page, slot));
    let bytes = slot_in(page, slot);
    let key = BigEndian::read_u64(&bytes[KEY_AT..]);
    match bytes[STATE_AT] {
        NEVER => Slot::Never,
        ABSENT => Slot::Absent { key },
        _ => Slot::Present {
            key,
            value: value_in(bytes),
        },
    }
}
