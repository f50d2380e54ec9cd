//! Which pages may stand in an image.

ghost use Rattle.std.specs.Prelude.{◌≡◌, Some};
ghost use Rattle.page_format.specs.Header.{header_of};
ghost use Rattle.table_image_text.specs.Pages.{earlier, header_fault, page_fault, fault_up_to};

use ds_base::{Lrsn, PageId};
use page_format::Page;

// Where the version of a page stands, and its number (LRSN).

pub const VERSION_AT: u16 = 5;

const LRSN_AT: u16 = 16;

fn header_fault(page: &Page, id: PageId) -> Option<u16>
    ensures { result ≡ header_fault (header_of page.now id) }
{
    match page.read_header(id) {
        Err(fault) => Some(fault.at),
        Ok(_) => None,
    }
}

// Of two fields that can't stand there, the first.
fn earlier(at: u16, other: Option<u16>) -> u16
    ensures { Some result ≡ earlier at other }
{
    match other {
        Some(other) if other < at => other,
        _ => at,
    }
}

/// Where the page shows that it can't stand in an image: a field of its header isn't the page's, or it is of version 1. One
/// of zeros may.
pub fn page_fault(page: &Page, id: PageId) -> Option<u16>
    ensures { result ≡ page_fault id page.now }
{
    let fault = header_fault(page, id);
    if page.is_old() {
        Some(earlier(VERSION_AT, fault))
    } else {
        fault
    }
}

/// Where it can't stand in one that numbers (LRSNs) up to this one are allowed in.
pub fn fault_up_to(page: &Page, id: PageId, greatest: Lrsn) -> Option<u16>
    ensures { result ≡ fault_up_to greatest id page.now }
{
    let fault = page_fault(page, id);
    if greatest.number() < page.lrsn().number() {
        Some(earlier(LRSN_AT, fault))
    } else {
        fault
    }
}
