//! Where pages show that they can't be those that were looked for.
ghost use Rattle.std.specs.Prelude.{◌≡◌, ◌≤◌, None};
ghost use Rattle.page_format.specs.Header.{entries_per_page};
ghost use Rattle.index_leaf.specs.Entries.{count_of, entries_of, IsRising};
ghost use Rattle.index_leaf.specs.Changes.{id_of};
ghost use Rattle.page_plans.specs.Faults.{number_of, is_kind, kind_fault, page_fault, node_fault, new_page_fault, search_fault, IsNodeKind};

use ds_base::{Key, PageId};
use index_leaf::low_key;
use page_format::{Page, PageKind};
use rising_keys::first_fall;

const KIND_AT: u16 = 4;

const COUNT_AT: u16 = 26;

const LOW_AT: u16 = 32;

// The number that the header of a page of the kind has, and 0 for an empty page.
fn number_of(kind: PageKind) -> u8
    ensures { result ≡ number_of kind }
{
    match kind {
        PageKind::Empty => 0,
        PageKind::HeapHeader => 1,
        PageKind::Heap => 2,
        PageKind::IndexHeader => 3,
        PageKind::Branch => 4,
        PageKind::Leaf => 5,
    }
}

pub fn is_kind(wanted: PageKind, kind: PageKind) -> bool
    ensures { result ≡ is_kind wanted kind }
{
    number_of(wanted) == number_of(kind)
}

// Where a page of one kind shows that it isn't of another.
fn kind_fault(wanted: PageKind, kind: PageKind) -> Option<u16>
    ensures { result ≡ kind_fault wanted kind }
{
    if is_kind(wanted, kind) {
        None
    } else if is_kind(PageKind::Empty, kind) {
        Some(0)
    } else {
        Some(KIND_AT)
    }
}

/// Where the page shows that it isn't the page of this name, of this kind.
#[tactic(auto, using(crate::proofs::Nodes::name_of))]
pub fn page_fault(wanted: PageKind, id: PageId, page: &Page) -> Option<u16>
    ensures exact { result ≡ page_fault wanted id page.now }
    ensures name { 1 ≤ number_of wanted → result ≡ None → id_of page.now ≡ id }
{
    match page.read_header(id) {
        Err(fault) => Some(fault.at),
        Ok(header) => kind_fault(wanted, header.kind),
    }
}

/// Where the page shows that it is neither a leaf nor a branch.
pub fn node_fault(id: PageId, page: &Page) -> Option<u16>
    ensures exact { result ≡ node_fault id page.now }
    ensures name { result ≡ None → id_of page.now ≡ id }
{
    match page_fault(PageKind::Leaf, id, page) {
        None => None,
        Some(_) => page_fault(PageKind::Branch, id, page),
    }
}

/// Where a page of the heap shows that the slot of this number isn't the next one to be given in it.
///
/// A page whose first slot is given is empty before. Any other has as many slots as this slot's number.
pub fn new_page_fault(id: PageId, slot: u16, page: &Page) -> Option<u16>
    ensures { result ≡ new_page_fault id slot page.now }
{
    if slot == 0 {
        return page_fault(PageKind::Empty, id, page);
    }
    let header = match page.read_header(id) {
        Err(fault) => return Some(fault.at),
        Ok(header) => header,
    };
    if let Some(at) = kind_fault(PageKind::Heap, header.kind) {
        return Some(at);
    }
    if header.count == slot {
        None
    } else {
        Some(COUNT_AT)
    }
}

/// Where the page of this name, a leaf or a branch as wanted, shows that the key can't be looked for in it or to its
/// right.
#[tactic(auto, using(crate::proofs::Nodes::room_of))]
pub fn search_fault(wanted: PageKind, id: PageId, key: Key, page: &Page) -> Option<u16>
    requires node { IsNodeKind wanted }
    ensures exact { result ≡ search_fault wanted id key page.now }
    ensures rising { result ≡ None → IsRising (entries_of page.now) }
    ensures room { result ≡ None → count_of page.now ≤ entries_per_page }
    ensures name { result ≡ None → id_of page.now ≡ id }
{
    if let Some(at) = page_fault(wanted, id, page) {
        return Some(at);
    }
    if key < low_key(page) {
        return Some(LOW_AT);
    }
    first_fall(page)
}
