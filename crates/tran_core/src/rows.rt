//! What the pages of the heap say to a transaction, and the entries that a scan follows.
ghost use Rattle.std.specs.Prelude.{◌≡◌, ◌<◌, ◌≤◌, ◌++◌, None, IfOk, OnOk};
ghost use Rattle.ds_base.specs.Values.{IsValue};
ghost use Rattle.page_format.specs.Header.{entries_per_page, slots_per_page};
ghost use Rattle.heap_space.specs.Layout.{slot_at};
ghost use Rattle.heap_space.specs.Slots.{fault_in, content, slot_in};
ghost use Rattle.index_leaf.specs.Entries.{count_of};
ghost use Rattle.tran_core.specs.Looks.{is_heap, between, kept, next_leaf, row_read, row_in};

use crate::lookup::{RIGHT_AT, kind_fault};
use crate::stage::NextLeaf;
use ds_base::{Key, NoMemory, PageId, Value};
use heap_space::{Slot, row, slot_fault};
use index_leaf::{Entry, count, entry, high_key, right};
use page_format::{Page, PageKind};
use std::alloc::Global;
use std::collections::VecDeque;

// Where the key begins in a slot.
const KEY_IN_SLOT: u16 = 8;

const COUNT_AT: u16 = 26;

// Where the slot of this number begins in its page.
fn slot_at(slot: u16) -> u16
    requires { slot < slots_per_page }
    ensures { result ≡ slot_at slot }
{
    32 + 128 * slot
}

// The value of these bytes.
fn value_of(alloc: Global, bytes: &[u8]) -> Value
    requires { IsValue bytes.now }
    ensures { result ≡ bytes.now }
{
    let Ok(Some(value)) = Value::new(alloc, bytes) else {
        unreachable!()
    };
    value
}

// The row of the key, as a sound slot says.
#[tactic(auto, using(crate::proofs::Slots::value_at))]
fn row_in(alloc: Global, page: &Page, slot: u16, key: Key) -> Result<Option<Value>, u16>
    requires slot { slot < slots_per_page }
    requires allowed { fault_in page.now slot ≡ None }
    ensures { result ≡ row_in key (slot_at slot) (content (slot_in page.now slot)) }
{
    let at = slot_at(slot);
    match row(page, slot) {
        Slot::Never => Err(at),
        Slot::Absent { key: its } if its == key => Ok(None),
        Slot::Present { key: its, value } if its == key => Ok(Some(value_of(alloc, value))),
        Slot::Absent { .. } | Slot::Present { .. } => Err(at + KEY_IN_SLOT),
    }
}

fn is_heap(kind: PageKind) -> bool
    ensures { result ≡ is_heap kind }
{
    matches!(kind, PageKind::Heap)
}

/// The row that the index leads to, or the offset of the first field that can't stand there.
#[tactic(auto, using(crate::proofs::Slots::slots_of, crate::proofs::Slots::fits_of))]
pub fn row_read(
    alloc: Global,
    page: &Page,
    id: PageId,
    slot: u16,
    key: Key,
) -> Result<Option<Value>, u16>
    ensures { result ≡ row_read id slot key page.now }
{
    let header = match page.read_header(id) {
        Ok(header) => header,
        Err(fault) => return Err(fault.at),
    };
    if let Some(at) = kind_fault(is_heap(header.kind), header.kind) {
        return Err(at);
    }
    if slot >= header.count {
        return Err(COUNT_AT);
    }
    if let Some(at) = slot_fault(page, slot) {
        return Err(at);
    }
    row_in(alloc, page, slot, key)
}

// Keeps an entry whose key lies between two.
#[tactic(auto, unfolding(crate::specs::Looks::is_between))]
fn keep_entry(
    entries: &mut VecDeque<Entry>,
    entry: Entry,
    low: Key,
    high: Key,
) -> Result<(), NoMemory>
    ensures { OnOk result (entries.new.items ≡ entries.old.items ++ kept low high entry) }
{
    if low <= entry.key && entry.key <= high {
        entries.push_back(entry)?;
    }
    Ok(())
}

/// The entries of a leaf from one key to another.
pub fn entries_between(
    alloc: Global,
    page: &Page,
    low: Key,
    high: Key,
) -> Result<VecDeque<Entry>, NoMemory>
    requires { count_of page.now ≤ entries_per_page }
    ensures { IfOk result (λ entries. entries.items ≡ between low high page.now) }
{
    let mut entries = VecDeque::new(alloc);
    for at in 0..count(page) {
        let Some((key, place)) = entry(page, at) else {
            return Ok(entries);
        };
        keep_entry(&mut entries, Entry { key, place }, low, high)?;
    }
    Ok(entries)
}

/// Where a scan goes on behind a leaf, or the offset of the field that can't stand there.
pub fn next_leaf(page: &Page, high: Key) -> Result<Option<NextLeaf>, u16>
    ensures { result ≡ next_leaf high page.now }
{
    match high_key(page) {
        Some(key) if key <= high => match right(page) {
            Some(page) => Ok(Some(NextLeaf { page, key })),
            None => Err(RIGHT_AT),
        },
        Some(_) | None => Ok(None),
    }
}
