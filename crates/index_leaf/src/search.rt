ghost use Rattle.std.specs.Prelude.{◌≡◌, ℕ, ◌≤◌, ◌↔◌, IsTrue};
ghost use Rattle.page_format.specs.Fields.{page_size};
ghost use Rattle.page_format.specs.Header.{entries_per_page};
ghost use Rattle.index_leaf.specs.Entries.{count_of, entries_of, IsRising};
ghost use Rattle.index_leaf.specs.Search.{how_many, floor, look_of};

use crate::fields::{count, entry_at, high_key, right_field};
use crate::layout::{Entry, KIND_AT};
use crate::step::Look;
use ds_base::Key;
use page_format::Page;

/// Whether the keys of the page rise, as those of each sound branch or leaf do.
#[tactic(auto, using(crate::proofs::Places::rising_from, crate::proofs::Places::rising_at))]
pub fn keys_rise(page: &Page) -> bool
    requires { count_of page.now ≤ entries_per_page }
    ensures { IsTrue result ↔ IsRising (entries_of page.now) }
{
    let bytes = page.bytes();
    let count = count(page) as usize;
    let mut at = 1;
    while at < count {
        if entry_at(bytes, at - 1).key >= entry_at(bytes, at).key {
            return false;
        }
        at += 1;
    }
    true
}

#[tactic(auto, using(crate::proofs::Places::page_end, crate::proofs::Places::page_below, crate::proofs::Places::page_upto))]
// How many entries have keys that are not above this one.
pub fn entries_upto(page: &Page, key: Key) -> usize
    requires rising { IsRising (entries_of page.now) }
    requires room { count_of page.now ≤ entries_per_page }
    ensures value { result ≡ how_many (entries_of page.now) key }
    ensures range { result ≤ count_of page.now }
{
    let bytes = page.bytes();
    let mut low = 0;
    let mut high = count(page) as usize;
    while low < high {
        let middle = low + (high - low) / 2;
        if entry_at(bytes, middle).key <= key {
            low = middle + 1;
        } else {
            high = middle;
        }
    }
    low
}

// The entry of the greatest key that is not above this one.
#[tactic(auto, using(crate::proofs::Places::floor_none, crate::proofs::Places::floor_some))]
fn floor(page: &Page, key: Key) -> Option<Entry>
    requires rising { IsRising (entries_of page.now) }
    requires room { count_of page.now ≤ entries_per_page }
    ensures { result ≡ floor (entries_of page.now) key }
{
    let upto = entries_upto(page, key);
    if upto == 0 {
        return None;
    }
    Some(entry_at(page.bytes(), upto - 1))
}

/// Where the search for a key goes from a branch or leaf page whose keys rise.
#[tactic(auto, using(crate::proofs::Places::find_is))]
pub fn look(page: &Page, key: Key) -> Look
    requires rising { IsRising (entries_of page.now) }
    requires room { count_of page.now ≤ entries_per_page }
    ensures { result ≡ look_of page.now key }
{
    if let Some(high) = high_key(page)
        && high <= key
    {
        return Look::Right(right_field(page));
    }
    let Some(entry) = floor(page, key) else {
        return Look::Absent;
    };
    if page.bytes()[KIND_AT] == 4 {
        Look::Down(entry.place.page)
    } else if entry.key == key {
        Look::Found(entry.place)
    } else {
        Look::Absent
    }
}
