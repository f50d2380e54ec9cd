ghost use Rattle.std.specs.Prelude.{◌≡◌, ◌+◌, ◌≤◌, drop};
ghost use Rattle.page_format.specs.Fields.{page_size, number_in};
ghost use Rattle.page_format.specs.Header.{is_zeros, header_of};
ghost use Rattle.page_images.specs.Parts.{part};
ghost use Rattle.sound_disk.specs.Layouts.{count_in, has_clean_header};
ghost use Rattle.table_pages.specs.Kinds.{rank, has_kind, both_or_neither};

use byteorder::{BigEndian, ByteOrder};
use ds_base::PageId;
use page_format::{Page, PageKind};

fn is_zeros(bytes: &[u8]) -> bool
    ensures { result ≡ is_zeros bytes.now }
{
    bytes.iter().all(|byte| *byte == 0)
}

/// Whether so many bytes from the offset on are zeros.
pub fn part_is_zeros(page: &Page, at: usize, width: usize) -> bool
    requires { at + width ≤ page_size }
    ensures { result ≡ is_zeros (part at width page.now) }
{
    let bytes = page.bytes();
    is_zeros(&bytes[at..at + width])
}

/// Whether all bytes from the offset on are zeros.
pub fn rest_is_zeros(page: &Page, at: usize) -> bool
    requires { at ≤ page_size }
    ensures { result ≡ is_zeros (drop at page.now) }
{
    let bytes = page.bytes();
    is_zeros(&bytes[at..])
}

/// The number in the two bytes from the offset on.
pub fn read_u16(page: &Page, at: usize) -> u16
    requires { at + 2 ≤ page_size }
    ensures { result ≡ number_in page.now at 2 }
{
    let bytes = page.bytes();
    BigEndian::read_u16(&bytes[at..])
}

/// The number in the four bytes from the offset on.
pub fn read_u32(page: &Page, at: usize) -> u32
    requires { at + 4 ≤ page_size }
    ensures { result ≡ number_in page.now at 4 }
{
    let bytes = page.bytes();
    BigEndian::read_u32(&bytes[at..])
}

/// The number in the eight bytes from the offset on.
pub fn read_u64(page: &Page, at: usize) -> u64
    requires { at + 8 ≤ page_size }
    ensures { result ≡ number_in page.now at 8 }
{
    let bytes = page.bytes();
    BigEndian::read_u64(&bytes[at..])
}

/// How many slots or entries the header says.
pub fn count_in(page: &Page) -> u16
    ensures { result ≡ count_in page.now }
{
    read_u16(page, 26)
}

/// Whether the bytes of the header that are no field's are zeros.
pub fn has_clean_header(page: &Page) -> bool
    ensures { result ≡ has_clean_header page.now }
{
    part_is_zeros(page, 12, 4) && part_is_zeros(page, 28, 4)
}

fn rank(kind: PageKind) -> u8
    ensures { result ≡ rank kind }
{
    match kind {
        PageKind::Empty => 0,
        PageKind::HeapHeader => 1,
        PageKind::Heap => 2,
        PageKind::IndexHeader => 3,
        PageKind::Branch => 4,
        PageKind::Leaf => 5,
    }
}

/// Whether the header may be the page's, and is of the kind.
pub fn has_kind(page: &Page, id: PageId, kind: PageKind) -> bool
    ensures { result ≡ has_kind kind (header_of page.now id) }
{
    match page.read_header(id) {
        Ok(header) => rank(header.kind) == rank(kind),
        Err(_) => false,
    }
}

/// Whether both are so, or neither is.
pub fn both_or_neither(a: bool, b: bool) -> bool
    ensures { result ≡ both_or_neither a b }
{
    if a { b } else { !b }
}
