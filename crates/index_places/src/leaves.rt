ghost use Rattle.std.specs.Prelude.{◌≡◌, ◌≤◌, nat_lt, true, false, length, IfOk};
ghost use Rattle.std.specs.List.{list_all, AllWithin};
ghost use Rattle.std.specs.List.Sorted.{IsPartitionPoint};
ghost use Rattle.index_leaf.specs.Entries.{high_of};
ghost use Rattle.index_leaf.specs.Nodes.{IsNode};
ghost use Rattle.index_leaf.specs.Search.{is_beyond};
ghost use Rattle.sound_disk.specs.Indexes.{IsNodePage};
ghost use Rattle.index_places.specs.Placing.{same_place, is_place, leads, lands_at, has_place, leaf_stands, AreByKey};

use crate::slots::Given;
use ds_base::{Key, NoMemory, PageId, Place, TableId};
use index_leaf::{Entry, Look, high_key, look, low_key};
use index_links::{entries_in, node_of};
use page_format::Page;
use spot_map::SpotMap;
use std::alloc::Global;

fn same_place(a: Place, b: Place) -> bool
    ensures { result ≡ same_place a b }
{
    a.page == b.page && a.slot == b.slot
}

fn is_place(found: Option<Place>, place: Place) -> bool
    ensures { result ≡ is_place found place }
{
    match found {
        None => false,
        Some(found) => same_place(found, place),
    }
}

fn all_lead(table: TableId, places: &SpotMap<Place>, entries: &[Entry]) -> bool
    ensures { result ≡ list_all (leads places.now table) entries.now }
{
    for entry in entries {
        if !is_place(places.get(table, entry.key), entry.place) {
            return false;
        }
    }
    true
}

// Whether the search from a leaf ends at the place, if it doesn't go on to another page.
fn lands_at(went: Look, place: Place) -> bool
    ensures { result ≡ lands_at went place }
{
    match went {
        Look::Right(_) | Look::Down(_) => true,
        Look::Found(found) => same_place(found, place),
        Look::Absent => false,
    }
}

// Whether the leaf has the place of the slot, if the slot was given to one of its keys.
fn has_place(page: &Page, one: Given) -> bool
    requires { IsNode page.now }
    ensures { result ≡ has_place page.now one }
{
    one.key < low_key(page) || lands_at(look(page, one.key), one.place)
}

fn all_there(page: &Page, given: &[Given]) -> bool
    requires { IsNode page.now }
    ensures { result ≡ list_all (has_place page.now) given.now }
{
    for one in given {
        if !has_place(page, *one) {
            return false;
        }
    }
    true
}

// How many of the slots were given to keys below this one.
fn count_below(given: &[Given], key: Key) -> usize
    requires { AreByKey given.now }
    ensures bound { result ≤ length given.now }
    ensures point { IsPartitionPoint (λ g. nat_lt g.key key ≡ true) (λ g. nat_lt g.key key ≡ false) given.now result }
{
    given.partition_point(|one| one.key < key)
}

// How many of them, before those given to keys beyond the page.
fn count_within(page: &Page, given: &[Given]) -> usize
    requires { AreByKey given.now }
    ensures bound { result ≤ length given.now }
    ensures beyond { AllWithin (λ g. is_beyond (high_of page.now) g.key ≡ true) given.now result (length given.now) }
{
    match high_key(page) {
        None => given.len(),
        Some(high) => count_below(given, high),
    }
}

fn has_places(page: &Page, given: &[Given]) -> bool
    requires node { IsNode page.now }
    requires order { AreByKey given.now }
    ensures { result ≡ list_all (has_place page.now) given.now }
{
    let rest = &given[count_below(given, low_key(page))..];
    all_there(page, &rest[..count_within(page, rest)])
}

/// Whether the page is no leaf, or its entries are the places of the slots that were given to its keys.
///
/// It takes time in the logarithm of the number of the slots, which are in the order of their keys, and in the number of those
/// that were given to its keys.
pub fn leaf_stands(
    alloc: Global,
    table: TableId,
    id: PageId,
    page: &Page,
    places: &SpotMap<Place>,
    given: &[Given],
) -> Result<bool, NoMemory>
    requires page { IsNodePage id page.now }
    requires order { AreByKey given.now }
    ensures { IfOk result (λ stands. stands ≡ leaf_stands places.now table given.now page.now) }
{
    if node_of(page).is_branch {
        return Ok(true);
    }
    let entries = entries_in(alloc, page)?;
    Ok(all_lead(table, places, &entries) && has_places(page, given))
}
