ghost use Rattle.std.specs.Prelude.{◌≡◌, ◌≤◌, None};
ghost use Rattle.page_format.specs.Header.{entries_per_page};
ghost use Rattle.index_leaf.specs.Entries.{count_of, entries_of, IsRising};
ghost use Rattle.rising_keys.specs.Falls.{fall_of};

use index_leaf::{count, entry};
use page_format::Page;

// Where the first entry stands in a page, and how many bytes each has.
const FIRST_ENTRY_AT: u16 = 64;

const ENTRY_WIDTH: u16 = 16;

/// The offset of the first key that isn't above the one before it.
#[tactic(auto, using(crate::proofs::Falls::fall_none, crate::proofs::Falls::fall_some, crate::proofs::Falls::fall_next, crate::proofs::Falls::fall_last, crate::proofs::Falls::fall_past, crate::proofs::Falls::rising_of))]
pub fn first_fall(page: &Page) -> Option<u16>
    requires { count_of page.now ≤ entries_per_page }
    ensures exact { result ≡ fall_of (entries_of page.now) }
    ensures rising { result ≡ None → IsRising (entries_of page.now) }
{
    let Some((mut last, _)) = entry(page, 0) else {
        return None;
    };
    for at in 1..count(page) {
        let Some((key, _)) = entry(page, at) else {
            return None;
        };
        if key <= last {
            return Some(FIRST_ENTRY_AT + ENTRY_WIDTH * at);
        }
        last = key;
    }
    None
}
