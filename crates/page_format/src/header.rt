ghost use Rattle.std.specs.Prelude.{◌≡◌, ◌≤◌, length};
ghost use Rattle.ds_base.specs.Ids.{IsLrsn, lrsn_width, old_lrsn_width};
ghost use Rattle.page_format.specs.Fields.{page_size, lrsn_at, number_in, lrsn_of};
ghost use Rattle.page_format.specs.Header.{kind_of, is_version, may_have, most, fields, first_fault, is_zeros, empty_header, header_in, header_of};

use crate::layout::{
    COUNT_AT, KIND_AT, LRSN_AT, MARK_AT, NUMBER_AT, OLD_VERSION, SET_AT, VERSION, VERSION_AT,
};
use crate::{ENTRIES_PER_PAGE, Page, SLOTS_PER_PAGE};
use byteorder::{BigEndian, ByteOrder};
use ds_base::{Lrsn, PageId};

// What every page begins with, once it was written.
const MARK: [u8; 4] = *b"DSG1";

/// What a page holds.
#[derive(Clone, Copy, Debug, PartialEq, Eq)]
pub enum PageKind {
    /// It was never written: all its bytes are zeros.
    Empty,
    /// Page 0 of a table's heap.
    HeapHeader,
    /// Rows of a table.
    Heap,
    /// Page 0 of a table's index.
    IndexHeader,
    /// Entries that lead to other pages of the index.
    Branch,
    /// Entries that lead to rows.
    Leaf,
}

/// What the header of a page says besides its name.
#[derive(Clone, Copy, Debug, PartialEq, Eq)]
pub struct Header {
    pub kind: PageKind,
    /// The LRSN of the last change, 0 for an empty page.
    pub lrsn: Lrsn,
    /// How many slots or entries are in use, 0 for an empty page and for page 0 of a page set.
    pub count: u16,
}

/// The bytes are no page of this name: the field that begins at this offset can't stand there.
#[derive(Clone, Copy, Debug, PartialEq, Eq)]
pub struct NotAPage {
    pub at: u16,
}

impl PageKind {
    // The kind of this number, and `Empty` for a number that stands in no header.
    fn of_number(number: u8) -> PageKind
        ensures { result ≡ kind_of number }
    {
        match number {
            1 => PageKind::HeapHeader,
            2 => PageKind::Heap,
            3 => PageKind::IndexHeader,
            4 => PageKind::Branch,
            5 => PageKind::Leaf,
            _ => PageKind::Empty,
        }
    }

    // Whether the header of this page may have the kind.
    fn may_stand_in(self, id: PageId) -> bool
        ensures { result ≡ may_have id self }
    {
        let is_heap = id.set % 2 == 1;
        let is_first = id.number == 0;
        match self {
            PageKind::Empty => false,
            PageKind::HeapHeader => is_heap && is_first,
            PageKind::Heap => is_heap && !is_first,
            PageKind::IndexHeader => !is_heap && is_first,
            PageKind::Branch | PageKind::Leaf => !is_heap && !is_first,
        }
    }

    // The greatest count of a page of the kind.
    fn most(self) -> u16
        ensures { result ≡ most self }
    {
        match self {
            PageKind::Empty | PageKind::HeapHeader | PageKind::IndexHeader => 0,
            PageKind::Heap => SLOTS_PER_PAGE,
            PageKind::Branch | PageKind::Leaf => ENTRIES_PER_PAGE,
        }
    }
}

// The LRSN of a page, in 10 bytes.
fn new_number(page: &[u8]) -> u128
    requires { page_size ≤ length page.now }
    ensures value { result ≡ number_in page.now lrsn_at lrsn_width }
    ensures range { IsLrsn result }
{
    let b = &page[LRSN_AT as usize..];
    u128::from_be_bytes([
        0, 0, 0, 0, 0, 0, b[0], b[1], b[2], b[3], b[4], b[5], b[6], b[7], b[8], b[9],
    ])
}

// That of a page of version 1, in 6 bytes.
fn old_number(page: &[u8]) -> u128
    requires { page_size ≤ length page.now }
    ensures value { result ≡ number_in page.now lrsn_at old_lrsn_width }
    ensures range { IsLrsn result }
{
    let b = &page[LRSN_AT as usize..];
    u64::from_be_bytes([0, 0, b[0], b[1], b[2], b[3], b[4], b[5]]) as u128
}

fn read_number(page: &[u8]) -> u128
    requires { page_size ≤ length page.now }
    ensures value { result ≡ lrsn_of page.now }
    ensures range { IsLrsn result }
{
    if page[VERSION_AT as usize] == VERSION {
        new_number(page)
    } else {
        old_number(page)
    }
}

fn read_lrsn(page: &[u8]) -> Lrsn
    requires { page_size ≤ length page.now }
    ensures { result ≡ lrsn_of page.now }
{
    let Some(lrsn) = Lrsn::new(read_number(page)) else {
        unreachable!()
    };
    lrsn
}

fn is_version(number: u8) -> bool
    ensures { result ≡ is_version number }
{
    number == OLD_VERSION || number == VERSION
}

impl Header {
    // The header of a page that was never written.
    fn empty() -> Header
        ensures { result ≡ empty_header }
    {
        let Some(lrsn) = Lrsn::new(0) else {
            unreachable!()
        };
        Header {
            kind: PageKind::Empty,
            lrsn,
            count: 0,
        }
    }

    // What these bytes say, whether or not they may.
    fn read(page: &[u8]) -> Header
        requires { page_size ≤ length page.now }
        ensures { result ≡ header_in page.now }
    {
        Header {
            kind: PageKind::of_number(page[KIND_AT as usize]),
            lrsn: read_lrsn(page),
            count: BigEndian::read_u16(&page[COUNT_AT as usize..]),
        }
    }
}

fn is_zeros(page: &[u8]) -> bool
    ensures { result ≡ is_zeros page.now }
{
    page.iter().all(|byte| *byte == 0)
}

// The offset of the first field that can't stand in the header of this page.
fn find_fault(page: &[u8], id: PageId, header: &Header) -> Option<u16>
    requires whole { page_size ≤ length page.now }
    requires read { header.now ≡ header_in page.now }
    ensures { result ≡ first_fault (fields page.now id) }
{
    if &page[..4] != MARK.as_slice() {
        Some(MARK_AT)
    } else if !header.kind.may_stand_in(id) {
        Some(KIND_AT)
    } else if !is_version(page[VERSION_AT as usize]) {
        Some(VERSION_AT)
    } else if BigEndian::read_u16(&page[SET_AT as usize..]) != id.set {
        Some(SET_AT)
    } else if BigEndian::read_u32(&page[NUMBER_AT as usize..]) != id.number {
        Some(NUMBER_AT)
    } else if header.lrsn.number() == 0 {
        Some(LRSN_AT)
    } else if header.count > header.kind.most() {
        Some(COUNT_AT)
    } else {
        None
    }
}

impl Page {
    /// The LRSN of the last change, 0 for an empty page. Whether the bytes are a page's isn't asked.
    pub fn lrsn(&self) -> Lrsn
        ensures { result ≡ lrsn_of self.now }
    {
        read_lrsn(self.bytes())
    }

    /// The header of the page of this name. Bytes of no field are looked at only to tell an empty page.
    #[tactic(auto, unfolding(crate::specs::Header::header_of))]
    pub fn read_header(&self, id: PageId) -> Result<Header, NotAPage>
        ensures { result ≡ header_of self.now id }
    {
        let page = self.bytes();
        if is_zeros(page) {
            return Ok(Header::empty());
        }
        let header = Header::read(page);
        match find_fault(page, id, &header) {
            None => Ok(header),
            Some(at) => Err(NotAPage { at }),
        }
    }
}
