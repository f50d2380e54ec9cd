ghost use Rattle.std.specs.Prelude.{◌≡◌, ℕ, ◌+◌, ◌-◌, ◌^◌, ◌≤◌, ◌<◌, true, length, IfOk};
ghost use Rattle.page_format.specs.Fields.{page_size};
ghost use Rattle.page_format.specs.Header.{slots_per_page};
ghost use Rattle.heap_space.specs.Next.{last_page_of, given_of, header_allowed, next_place};

use crate::layout::{GIVEN_AT, LAST_PAGE_AT};
use byteorder::{BigEndian, ByteOrder};
use ds_base::Place;
use page_format::{Page, SLOTS_PER_PAGE};

/// No slot is left: the heap has this many pages of rows, and may have no more.
#[derive(Clone, Copy, Debug, PartialEq, Eq)]
pub struct SpaceFull {
    pub pages: u32,
}

fn read_last(header: &[u8]) -> u32
    requires { page_size ≤ length header.now }
    ensures { result ≡ last_page_of header.now }
{
    BigEndian::read_u32(&header[LAST_PAGE_AT as usize..])
}

// How many slots of the last page are given.
fn read_given(header: &[u8]) -> u16
    requires { page_size ≤ length header.now }
    ensures { result ≡ given_of header.now }
{
    BigEndian::read_u16(&header[GIVEN_AT as usize..])
}

/// The number of the last page of rows, 0 where there is none yet.
pub fn last_page(header: &Page) -> u32
    ensures { result ≡ last_page_of header.now }
{
    read_last(header.bytes())
}

/// Whether the fields of the header page may stand there: at most 31 slots are given, and a page may follow the last.
pub fn header_is_allowed(header: &Page) -> bool
    ensures exact { result ≡ header_allowed (last_page_of header.now) (given_of header.now) }
    ensures given { result ≡ true → given_of header.now ≤ slots_per_page }
    ensures last { result ≡ true → last_page_of header.now < 2 ^ 32 - 1 }
{
    last_page(header) < u32::MAX && read_given(header.bytes()) <= SLOTS_PER_PAGE
}

/// The place that a new row gets, in a heap that may have `limit` pages of rows.
pub fn next_slot(header: &Page, limit: u32) -> Result<Place, SpaceFull>
    requires given { given_of header.now ≤ slots_per_page }
    requires last { last_page_of header.now < 2 ^ 32 - 1 }
    requires limited { limit < 2 ^ 32 - 1 }
    ensures exact { result ≡ next_place (last_page_of header.now) (given_of header.now) limit }
    ensures range { IfOk result (λ place. (1 ≤ place.page) × (place.page < 2 ^ 32 - 1) × (place.slot < slots_per_page)) }
{
    let last = last_page(header);
    let given = read_given(header.bytes());
    if last >= limit && given == SLOTS_PER_PAGE {
        Err(SpaceFull { pages: last })
    } else if last == 0 {
        Ok(Place { page: 1, slot: 0 })
    } else if given < SLOTS_PER_PAGE {
        Ok(Place {
            page: last,
            slot: given,
        })
    } else {
        Ok(Place {
            page: last + 1,
            slot: 0,
        })
    }
}
