ghost use Rattle.std.specs.Prelude.{◌≡◌, ◌↔◌, ◌<◌, ◌≤◌, true, is_none, is_some, IsTrue};
ghost use Rattle.page_format.specs.Header.{entries_per_page};
ghost use Rattle.index_leaf.specs.Entries.{count_of, low_of, high_of, high_field, right_field, entries_of, IsRising};
ghost use Rattle.index_leaf.specs.Search.{is_beyond};
ghost use Rattle.sound_disk.specs.Indexes.{IsNodePage};
ghost use Rattle.table_pages.specs.Kinds.{both_or_neither};
ghost use Rattle.table_pages.specs.Nodes.{entry_fits, entries_fit, padding_fits, paddings_fit, links_fit, clean_fits, node_kind, node_fits};

use crate::bytes::{
    both_or_neither, has_clean_header, has_kind, part_is_zeros, read_u32, read_u64, rest_is_zeros,
};
use ds_base::{Key, PageId, Place};
use index_leaf::{count, entry, high_key, keys_rise, low_key};
use page_format::{ENTRIES_PER_PAGE, Page, PageKind};

#[tactic(auto, unfolding(index_leaf::specs::Entries::high_field))]
fn high_field(page: &Page) -> u64
    ensures { result ≡ high_field page.now }
{
    read_u64(page, 40)
}

#[tactic(auto, unfolding(index_leaf::specs::Entries::right_field))]
fn right_field(page: &Page) -> u32
    ensures { result ≡ right_field page.now }
{
    read_u32(page, 52)
}

// The mark of the high key is 0 or 1, and the high key, its mark and the right page agree.
fn links_fit(page: &Page) -> bool
    ensures { result ≡ links_fit page.now }
{
    page.bytes()[48] <= 1
        && (high_key(page).is_some() || high_field(page) == 0)
        && both_or_neither(right_field(page) == 0, high_key(page).is_none())
}

fn is_beyond(high: Option<Key>, key: Key) -> bool
    ensures { result ≡ is_beyond high key }
{
    match high {
        None => false,
        Some(high) => high <= key,
    }
}

fn entry_fits(is_branch: bool, low: Key, high: Option<Key>, key: Key, place: Place) -> bool
    ensures { result ≡ entry_fits is_branch low high key place }
{
    low <= key && !is_beyond(high, key) && (!is_branch || place.slot == 0)
}

// An entry is from the low key on and below the high key, and leads to no slot where the page is a branch.
fn entries_fit(page: &Page, is_branch: bool) -> bool
    requires { count_of page.now ≤ entries_per_page }
    ensures { result ≡ entries_fit is_branch (low_of page.now) (high_of page.now) (entries_of page.now) }
{
    let low = low_key(page);
    let high = high_key(page);
    for n in 0..count(page) {
        let Some((key, place)) = entry(page, n) else {
            return true;
        };
        if !entry_fits(is_branch, low, high, key, place) {
            return false;
        }
    }
    true
}

fn padding_fits(page: &Page, n: u16) -> bool
    requires { n < entries_per_page }
    ensures { result ≡ padding_fits page.now n }
{
    part_is_zeros(page, 64 + 16 * n as usize + 14, 2)
}

fn paddings_fit(page: &Page, count: u16) -> bool
    requires { count ≤ entries_per_page }
    ensures { result ≡ paddings_fit page.now count }
{
    for n in 0..count {
        if !padding_fits(page, n) {
            return false;
        }
    }
    true
}

fn clean_fits(page: &Page) -> bool
    requires { count_of page.now ≤ entries_per_page }
    ensures { result ≡ clean_fits page.now }
{
    let count = count(page);
    part_is_zeros(page, 49, 3)
        && part_is_zeros(page, 56, 8)
        && paddings_fit(page, count)
        && rest_is_zeros(page, 64 + 16 * count as usize)
}

fn node_fits(page: &Page, id: PageId) -> bool
    requires { count_of page.now ≤ entries_per_page }
    ensures { result ≡ node_fits id page.now }
{
    let is_branch = has_kind(page, id, PageKind::Branch);
    (is_branch || has_kind(page, id, PageKind::Leaf))
        && entries_fit(page, is_branch)
        && links_fit(page)
        && has_clean_header(page)
        && clean_fits(page)
}

fn test_node(page: &Page, id: PageId) -> bool
    requires { count_of page.now ≤ entries_per_page }
    ensures { IsTrue result ↔ (IsRising (entries_of page.now) × (node_fits id page.now ≡ true)) }
{
    keys_rise(page) && node_fits(page, id)
}

/// Whether the page is a branch or a leaf, and right: its keys rise from the low key on and below the high key, and it has a
/// page to its right exactly where it has a high key.
pub fn is_node_page(page: &Page, id: PageId) -> bool
    ensures { IsTrue result ↔ IsNodePage id page.now }
{
    // The bytes tell the proof how long the page is.
    let _bytes = page.bytes();
    if count(page) > ENTRIES_PER_PAGE {
        return false;
    }
    test_node(page, id)
}
