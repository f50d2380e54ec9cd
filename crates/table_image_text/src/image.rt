//! What stands in an image, and where bytes are none.

ghost use Rattle.std.specs.Prelude.{◌≡◌, ◌+◌, ◌≤◌, ◌<◌, ◌^◌, None, length, IfOk};
ghost use Rattle.ds_base.specs.Ids.{IsLrsn, lrsn_width};
ghost use Rattle.page_format.specs.Fields.{page_size, number_in};
ghost use Rattle.table_image_text.specs.Image.{head_size, lrsn_at, heap_in, index_in, page_name, place_of, page_in};
ghost use Rattle.table_image_text.specs.Faults.{field_fault, mark_fault, version_fault, table_fault, name_fault, lrsn_fault, counts_fault, behind, fault_in_page, fault_in_pages, end_fault, pages_fault, image_fault};

use crate::head::{HEAD_SIZE, MARK, VERSION};
use crate::pages::fault_up_to;
use byteorder::{BigEndian, ByteOrder};
use ds_base::{Lrsn, NoMemory, PageId, TableId};
use page_format::{PAGE_SIZE, Page};
use std::alloc::Global;

// Where the fields of the head begin, behind the mark.

const VERSION_AT: usize = 4;

const TABLE_AT: usize = 5;

const LRSN_AT: usize = 6;

const HEAP_AT: usize = 16;

const INDEX_AT: usize = 20;

// ---- the head

// Of a field so wide that begins at this byte.
fn field_fault(bytes: &[u8], at: usize, width: usize, is_right: bool) -> Option<u64>
    requires { at + width < 2 ^ 64 }
    ensures { result ≡ field_fault bytes.now at width is_right }
{
    if bytes.len() < at + width {
        Some(bytes.len() as u64)
    } else if is_right {
        None
    } else {
        Some(at as u64)
    }
}

fn mark_fault(bytes: &[u8]) -> Option<u64>
    ensures { result ≡ mark_fault bytes.now }
{
    if bytes.len() < VERSION_AT {
        return Some(bytes.len() as u64);
    }
    field_fault(
        bytes,
        0,
        VERSION_AT,
        &bytes[..VERSION_AT] == MARK.as_slice(),
    )
}

fn version_fault(bytes: &[u8]) -> Option<u64>
    ensures { result ≡ version_fault bytes.now }
{
    if bytes.len() < TABLE_AT {
        return Some(bytes.len() as u64);
    }
    field_fault(bytes, VERSION_AT, 1, bytes[VERSION_AT] == VERSION)
}

fn table_fault(bytes: &[u8], table: TableId) -> Option<u64>
    ensures { result ≡ table_fault bytes.now table }
{
    if bytes.len() < LRSN_AT {
        return Some(bytes.len() as u64);
    }
    field_fault(
        bytes,
        TABLE_AT,
        1,
        u64::from(bytes[TABLE_AT]) == table.number(),
    )
}

/// Where the bytes can't begin an image of the table: what is told without the logs, its mark, its version and the table.
pub fn name_fault(bytes: &[u8], table: TableId) -> Option<u64>
    ensures { result ≡ name_fault bytes.now table }
{
    if let Some(at) = mark_fault(bytes) {
        return Some(at);
    }
    if let Some(at) = version_fault(bytes) {
        return Some(at);
    }
    table_fault(bytes, table)
}

fn read_lrsn(bytes: &[u8]) -> u128
    requires { 16 ≤ length bytes.now }
    ensures { result ≡ number_in bytes.now lrsn_at lrsn_width }
{
    let b = &bytes[LRSN_AT..];
    u128::from_be_bytes([
        0, 0, 0, 0, 0, 0, b[0], b[1], b[2], b[3], b[4], b[5], b[6], b[7], b[8], b[9],
    ])
}

fn lrsn_fault(bytes: &[u8], greatest: Lrsn) -> Option<u64>
    ensures { result ≡ lrsn_fault bytes.now greatest }
{
    if bytes.len() < HEAP_AT {
        return Some(bytes.len() as u64);
    }
    let is_known = read_lrsn(bytes) <= greatest.number();
    field_fault(bytes, LRSN_AT, HEAP_AT - LRSN_AT, is_known)
}

fn counts_fault(bytes: &[u8]) -> Option<u64>
    ensures exact { result ≡ counts_fault bytes.now }
    ensures none { result ≡ None → head_size ≤ length bytes.now }
{
    if let Some(at) = field_fault(bytes, HEAP_AT, INDEX_AT - HEAP_AT, true) {
        return Some(at);
    }
    field_fault(bytes, INDEX_AT, HEAD_SIZE - INDEX_AT, true)
}

/// How many pages of the heap stand in the image.
pub fn heap_pages(bytes: &[u8]) -> u32
    requires { head_size ≤ length bytes.now }
    ensures { result ≡ heap_in bytes.now }
{
    BigEndian::read_u32(&bytes[HEAP_AT..])
}

/// How many pages of the index.
pub fn index_pages(bytes: &[u8]) -> u32
    requires { head_size ≤ length bytes.now }
    ensures { result ≡ index_in bytes.now }
{
    BigEndian::read_u32(&bytes[INDEX_AT..])
}

// ---- the pages

/// The name of the page at this place of an image of the table, which has so many pages of the heap.
pub fn page_name(table: TableId, heap: u32, n: u64) -> PageId
    requires { n < heap + 2 ^ 32 }
    ensures { result ≡ page_name table heap n }
{
    if n < u64::from(heap) {
        table.heap_page(n as u32)
    } else {
        table.index_page((n - u64::from(heap)) as u32)
    }
}

// Where a page begins.
fn place_of(n: u64) -> u64
    requires { n ≤ 2 ^ 33 }
    ensures exact { result ≡ place_of n }
    ensures bound { result + page_size < 2 ^ 46 }
{
    HEAD_SIZE as u64 + PAGE_SIZE as u64 * n
}

/// Fills the page with that at this place of the image.
pub fn load_page(page: &mut Page, bytes: &[u8], n: u64)
    requires few { n ≤ 2 ^ 33 }
    requires whole { place_of n + page_size ≤ length bytes.now }
    ensures { page.new ≡ page_in bytes.now n }
{
    let at = place_of(n) as usize;
    page.bytes_mut().copy_from_slice(&bytes[at..at + PAGE_SIZE]);
}

fn fault_behind(place: u64, at: Option<u16>) -> Option<u64>
    requires { place < 2 ^ 46 }
    ensures { result ≡ behind place at }
{
    match at {
        Some(at) => Some(place + u64::from(at)),
        None => None,
    }
}

// The page is a room to work in.
fn fault_in_page(
    page: &mut Page,
    bytes: &[u8],
    table: TableId,
    greatest: Lrsn,
    heap: u32,
    n: u64,
) -> Option<u64>
    requires { n < heap + 2 ^ 32 }
    ensures { result ≡ fault_in_page bytes.now table greatest heap n }
{
    let place = place_of(n);
    if (bytes.len() as u64) < place + PAGE_SIZE as u64 {
        return Some(bytes.len() as u64);
    }
    load_page(page, bytes, n);
    fault_behind(
        place,
        fault_up_to(page, page_name(table, heap, n), greatest),
    )
}

fn fault_in_pages(
    page: &mut Page,
    bytes: &[u8],
    table: TableId,
    greatest: Lrsn,
    heap: u32,
    count: u64,
) -> Option<u64>
    requires { count ≤ heap + 2 ^ 32 }
    ensures { result ≡ fault_in_pages bytes.now table greatest heap 0 count }
{
    for n in 0..count {
        match fault_in_page(page, bytes, table, greatest, heap, n) {
            Some(at) => return Some(at),
            None => {}
        }
    }
    None
}

fn end_fault(bytes: &[u8], count: u64) -> Option<u64>
    requires { count ≤ 2 ^ 33 }
    ensures { result ≡ end_fault bytes.now count }
{
    let end = place_of(count);
    if end < bytes.len() as u64 {
        Some(end)
    } else {
        None
    }
}

fn pages_fault(page: &mut Page, bytes: &[u8], table: TableId, greatest: Lrsn) -> Option<u64>
    requires { head_size ≤ length bytes.now }
    ensures { result ≡ pages_fault bytes.now table greatest }
{
    let heap = heap_pages(bytes);
    let count = u64::from(heap) + u64::from(index_pages(bytes));
    if let Some(at) = fault_in_pages(page, bytes, table, greatest, heap, count) {
        return Some(at);
    }
    end_fault(bytes, count)
}

/// Where the bytes are no image of the table: the first byte of the first field, of the head or of a page, that isn't allowed,
/// names another table or has a number (LRSN) above this one; or where the image ends before its pages are whole, or goes on behind them.
#[tactic(auto, unfolding(crate::specs::Faults::image_fault))]
pub fn image_fault(
    alloc: Global,
    bytes: &[u8],
    table: TableId,
    greatest: Lrsn,
) -> Result<Option<u64>, NoMemory>
    ensures { IfOk result (λ fault. fault ≡ image_fault bytes.now table greatest) }
{
    if let Some(at) = name_fault(bytes, table) {
        return Ok(Some(at));
    }
    if let Some(at) = lrsn_fault(bytes, greatest) {
        return Ok(Some(at));
    }
    if let Some(at) = counts_fault(bytes) {
        return Ok(Some(at));
    }
    let mut page = Page::zero(alloc)?;
    Ok(pages_fault(&mut page, bytes, table, greatest))
}
