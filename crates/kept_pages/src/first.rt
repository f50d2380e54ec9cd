ghost use Rattle.std.specs.Prelude.{◌≡◌};
ghost use Rattle.kept_pages.specs.Unmet.{is_before, lower, judged_with, meets, is_seen};

use ds_base::PageId;
use kept_checkpoints::Need;
use page_format::Page;

fn is_before(a: PageId, b: PageId) -> bool
    ensures { result ≡ is_before a b }
{
    a.set < b.set || (a.set == b.set && a.number < b.number)
}

fn lower(first: Option<PageId>, id: PageId) -> Option<PageId>
    ensures { result ≡ lower first id }
{
    match first {
        None => Some(id),
        Some(first) => {
            if is_before(id, first) {
                Some(id)
            } else {
                Some(first)
            }
        }
    }
}

/// The first page so far, where this page meets the need or doesn't.
pub fn judged_with(is_met: bool, first: Option<PageId>, id: PageId) -> Option<PageId>
    ensures { result ≡ judged_with is_met first id }
{
    if is_met { first } else { lower(first, id) }
}

/// Whether this page was seen last.
pub fn is_seen(seen: Option<PageId>, id: PageId) -> bool
    ensures { result ≡ is_seen seen id }
{
    match seen {
        None => false,
        Some(last) => last.is_same(id),
    }
}

/// Whether the page meets the need.
pub fn meets(page: &Page, need: &Need) -> bool
    ensures { result ≡ meets page.now need.now }
{
    need.lrsn.number() <= page.lrsn().number() && !need.is_open
}
