ghost use Rattle.std.specs.Prelude.{◌≡◌};
ghost use Rattle.group_restart.specs.PageNumbers.{with_page_number};

use ds_base::{PageId, Volume};
use page_format::Page;
use restart_plan::Greatest;

// Where the number of the last change stands in a page.
const LRSN_AT: u64 = 16;

/// The page's number may be the greatest.
#[tactic(auto, unfolding(crate::specs::PageNumbers::with_page_number))]
pub fn with_page_number(greatest: Greatest, id: PageId, page: &Page) -> Greatest
    ensures { result ≡ with_page_number greatest id page.now }
{
    let lrsn = page.lrsn();
    if lrsn.number() <= greatest.lrsn.number() {
        return greatest;
    }
    Greatest {
        lrsn,
        volume: Volume::Page(id),
        at: LRSN_AT,
    }
}
