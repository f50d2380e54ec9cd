//! The order of pages.
ghost use Rattle.std.specs.Prelude.{◌≡◌, ◌<◌, cond};
ghost use Rattle.page_tree.specs.Order.{comes_before as is_before, is_past};

use ds_base::PageId;

/// Whether a page comes before another, by page set and number.
pub fn comes_before(a: PageId, b: PageId) -> bool
    ensures { result ≡ is_before a b }
{
    a.set < b.set || (a.set == b.set && a.number < b.number)
}

/// Whether the page is past the given one, if one is given.
pub(crate) fn is_past(after: Option<PageId>, id: PageId) -> bool
    ensures { result ≡ is_past after id }
{
    match after {
        Some(limit) => comes_before(limit, id),
        None => true,
    }
}

/// Both pages, the earlier first.
pub(crate) fn in_order(a: PageId, b: PageId) -> (PageId, PageId)
    ensures { result ≡ cond (is_before a b) (a, b) (b, a) }
{
    if comes_before(a, b) { (a, b) } else { (b, a) }
}

/// The middle of the pages that have the same bits as this one above those of the level.
pub(crate) fn middle_at(id: PageId, level: u32) -> PageId
    requires { level < 64 }
{
    let number = (id.set as u64) << 32 | id.number as u64;
    let middle = (number >> level | 1) << level;
    PageId {
        set: ((middle >> 32) % 0x1_0000) as u16,
        number: (middle % 0x1_0000_0000) as u32,
    }
}
