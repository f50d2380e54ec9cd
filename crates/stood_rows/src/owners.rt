//! The keys to which the slots of a page were given, and whether they are the same on another.

ghost use Rattle.std.specs.Prelude.{◌≡◌, ◌↔◌, ◌<◌, length, IsTrue};
ghost use Rattle.page_format.specs.Header.{slots_per_page};
ghost use Rattle.heap_space.specs.Layout.{slot_size};
ghost use Rattle.heap_space.specs.Slots.{content, slot_in};
ghost use Rattle.sound_disk.specs.Rows_there.{key_in};
ghost use Rattle.stood_rows.specs.Owners.{owner, is_kept, OwnersStay};

use byteorder::{BigEndian, ByteOrder};
use ds_base::Key;
use page_format::{Page, SLOTS_PER_PAGE};
use table_pages::count_in;

fn slot_bytes(page: &Page, slot: u16) -> &[u8]
    requires { slot < slots_per_page }
    ensures bytes { result.now ≡ slot_in page.now slot }
    ensures whole { length result.now ≡ slot_size }
{
    let at = 32 + 128 * slot as usize;
    &page.bytes()[at..at + 128]
}

fn key_of(bytes: &[u8]) -> Option<Key>
    requires { length bytes.now ≡ slot_size }
    ensures { result ≡ key_in (content bytes.now) }
{
    if bytes[0] == 0 {
        None
    } else {
        Some(BigEndian::read_u64(&bytes[8..]))
    }
}

// The key to which the slot was given, if it was.
fn owner(page: &Page, slot: u16) -> Option<Key>
    requires { slot < slots_per_page }
    ensures { result ≡ owner page.now slot }
{
    if slot < count_in(page) {
        key_of(slot_bytes(page, slot))
    } else {
        None
    }
}

fn is_kept(before: Option<Key>, behind: Option<Key>) -> bool
    ensures { result ≡ is_kept before behind }
{
    match (before, behind) {
        (None, _) => true,
        (Some(_), None) => false,
        (Some(key), Some(its)) => its == key,
    }
}

/// Whether each slot that was given on the page before is the same key's on the page behind.
pub fn owners_stay(before: &Page, behind: &Page) -> bool
    ensures { IsTrue result ↔ OwnersStay slots_per_page before.now behind.now }
{
    for slot in 0..SLOTS_PER_PAGE {
        let kept = is_kept(owner(before, slot), owner(behind, slot));
        if !kept {
            return false;
        }
    }
    true
}
