ghost use Rattle.std.specs.Prelude.{◌≡◌, ℕ, ◌+◌, ◌*◌, ◌<◌, ◌≤◌, length, slice_get};
ghost use Rattle.page_format.specs.Fields.{page_size, number_in};
ghost use Rattle.page_format.specs.Header.{entries_per_page};
ghost use Rattle.index_leaf.specs.Entries.{first_entry_at, entry_width, count_of, low_of, high_of, right_field, right_of, entry_in, entries_of};
ghost use Rattle.index_leaf.specs.Search.{pair_of};

use crate::layout::{
    COUNT_AT, ENTRY_WIDTH, Entry, FIRST_ENTRY_AT, HAS_HIGH_AT, HIGH_AT, LOW_AT, RIGHT_AT,
};
use byteorder::{BigEndian, ByteOrder};
use ds_base::{Key, Place};
use page_format::Page;

// All bytes of the page.
pub fn bytes_of(page: &Page) -> &[u8]
    ensures value { result.now ≡ page.now }
    ensures length { length page.now ≡ page_size }
{
    page.bytes()
}

// The number in the two bytes from an offset on.
pub fn read_u16(page: &[u8], offset: usize) -> u16
    requires { offset + 2 ≤ length page.now }
    ensures { result ≡ number_in page.now offset 2 }
{
    BigEndian::read_u16(&page[offset..])
}

// The number in the four bytes from an offset on.
pub fn read_u32(page: &[u8], offset: usize) -> u32
    requires { offset + 4 ≤ length page.now }
    ensures { result ≡ number_in page.now offset 4 }
{
    BigEndian::read_u32(&page[offset..])
}

// The number in the eight bytes from an offset on.
fn read_u64(page: &[u8], offset: usize) -> u64
    requires { offset + 8 ≤ length page.now }
    ensures { result ≡ number_in page.now offset 8 }
{
    BigEndian::read_u64(&page[offset..])
}

// The entry that begins at an offset.
#[tactic(auto, unfolding(crate::specs::Entries::entry_in))]
fn read_entry(page: &[u8], offset: usize) -> Entry
    requires { offset + entry_width ≤ length page.now }
    ensures { result ≡ entry_in page.now offset }
{
    Entry {
        key: read_u64(page, offset),
        place: Place {
            page: read_u32(page, offset + 8),
            slot: read_u16(page, offset + 12),
        },
    }
}

// The entry of this place in the order of the page.
pub fn entry_at(page: &[u8], at: usize) -> Entry
    requires { first_entry_at + entry_width * at + entry_width ≤ length page.now }
    ensures { result ≡ entry_in page.now (first_entry_at + entry_width * at) }
{
    read_entry(page, FIRST_ENTRY_AT + ENTRY_WIDTH * at)
}

/// How many entries the page holds.
#[tactic(auto, unfolding(crate::specs::Entries::count_of))]
pub fn count(page: &Page) -> u16
    ensures { result ≡ count_of page.now }
{
    read_u16(page.bytes(), COUNT_AT)
}

/// The key below which neither the page nor those to its right have one.
#[tactic(auto, unfolding(crate::specs::Entries::low_of))]
pub fn low_key(page: &Page) -> Key
    ensures { result ≡ low_of page.now }
{
    read_u64(page.bytes(), LOW_AT)
}

/// The key below which all keys of the page are.
#[tactic(auto, unfolding(crate::specs::Entries::high_field))]
pub fn high_key(page: &Page) -> Option<Key>
    ensures { result ≡ high_of page.now }
{
    let bytes = page.bytes();
    if bytes[HAS_HIGH_AT] == 1 {
        Some(read_u64(bytes, HIGH_AT))
    } else {
        None
    }
}

/// The number in the field of the right page, 0 where there is none.
#[tactic(auto, unfolding(crate::specs::Entries::right_field))]
pub fn right_field(page: &Page) -> u32
    ensures { result ≡ right_field page.now }
{
    read_u32(page.bytes(), RIGHT_AT)
}

/// The number of the page to the right.
pub fn right(page: &Page) -> Option<u32>
    ensures { result ≡ right_of page.now }
{
    let number = right_field(page);
    if number == 0 { None } else { Some(number) }
}

/// The entry of this place in the order of the page, from 0.
#[tactic(auto, using(crate::proofs::Places::entry_get, crate::proofs::Places::entry_past))]
pub fn entry(page: &Page, at: u16) -> Option<(Key, Place)>
    requires { count_of page.now ≤ entries_per_page }
    ensures { result ≡ pair_of (slice_get (entries_of page.now) at) }
{
    if at >= count(page) {
        return None;
    }
    let Entry { key, place } = entry_at(page.bytes(), at as usize);
    Some((key, place))
}
