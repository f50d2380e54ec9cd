//! The place of each page, found without a walk over the places.
//!
//! A name stays when its page leaves the place, and the place itself tells whether it is still true. Once
//! the memory that was taken is full, the pages that still stand somewhere are entered anew.
ghost use Rattle.std.specs.Prelude.{◌≡◌, ◌≢◌, ℕ, ◌<◌, ◌≤◌, ◌+◌, ◌*◌, ◌^◌, Some, length, slice_set, IfOk, IfSome};
ghost use Rattle.page_index.specs.Places.{AreApart, IsIndexOf, LeadsTo, page_at, find_place, confirmed, is_page, same_key, key_of};
ghost use Rattle.indexmap.specs.IndexMap.{index_map_len, spare, Updates};

use crate::page_hash::PageHasher;
use crate::place::HoldsPage;
use ds_base::{NoMemory, PageId};
use indexmap::IndexMap;
use std::alloc::Global;
use std::hash::BuildHasherDefault;
use std::marker::Model;

// From the page set and the number of a page to its place.
type Names = IndexMap<(u16, u32), u32, BuildHasherDefault<PageHasher>>;

/// From pages to the numbers of the places where they stand. The places are the owner's, who lends them to each call.
///
/// No call but `new` takes memory.
#[derive(Drop)]
pub struct PageIndex {
    names: Names,
    size: u32,
}

impl Model for PageIndex {
    ghost use Rattle.std.specs.Prelude.{◌≤◌, ◌+◌, ◌*◌};
    ghost use Rattle.indexmap.specs.IndexMap.{index_map_len, spare};
    ghost use Rattle.page_index.specs.Places.{Index};

    ghost Value = { Index };

    ghost view = { λ i. record { names = i.names.entries; size = i.size } };

    ghost invariant = { λ i. 2 * i.size ≤ index_map_len i.names + spare i.names };
}

impl PageIndex {
    /// An empty index for so many places.
    pub fn new(alloc: Global, size: u32) -> Result<PageIndex, NoMemory>
        ensures { IfOk result (λ index. index.size ≡ size) }
    {
        let room = 2 * size as usize;
        Ok(PageIndex {
            names: IndexMap::with_capacity_and_hasher(alloc, room, BuildHasherDefault::new())?,
            size,
        })
    }

    /// Forgets all pages.
    pub fn clear(&mut self)
        ensures { self.new.size ≡ self.old.size }
    {
        self.names.clear();
    }

    /// The place of a page.
    pub fn find<T: HoldsPage>(&self, places: &[T], id: PageId) -> Option<u32>
        requires { IsIndexOf T.page places.now self.now }
        ensures place { result ≡ find_place T.page places.now id }
        ensures there { IfSome result (λ f. f < length places.now) }
    {
        let named = self.names.get(&(id.set, id.number)).copied();
        confirm(places, id, named)
    }

    /// Enters a page that is about to be put into a place, and stands in no other.
    pub fn enter<T: HoldsPage>(&mut self, places: &[T], at: u32, id: PageId)
        requires there { at < length places.now }
        requires index { IsIndexOf T.page places.now self.old }
        requires alone { (f : ℕ) → find_place T.page places.now id ≡ Some f → f ≡ at }
        ensures index { (place : T) → T.page place ≡ Some id → IsIndexOf T.page (slice_set places.now at place) self.new }
        ensures size { self.new.size ≡ self.old.size }
    {
        make_room(&mut self.names, places, self.size);
        put(&mut self.names, id, at);
    }
}

// The place that is named, if the page still stands there.
fn confirm<T: HoldsPage>(places: &[T], id: PageId, named: Option<u32>) -> Option<u32>
    ensures { result ≡ confirmed T.page places.now id named }
{
    let at = named?;
    let place = places.get(at as usize)?;
    if is_same(id, place.page()) {
        Some(at)
    } else {
        None
    }
}

fn is_same(id: PageId, page: Option<PageId>) -> bool
    ensures { result ≡ is_page id page }
{
    match page {
        Some(page) => id.is_same(page),
        None => false,
    }
}

// Forgets the pages that have left, if there is no room for one more.
fn make_room<T: HoldsPage>(names: &mut Names, places: &[T], size: u32)
    requires some { 0 < size }
    requires leads { (f : ℕ) (id : PageId) → LeadsTo T.page places.now names.old.entries f id }
    requires fits { length places.now ≤ size }
    requires room { 2 * size ≤ index_map_len names.old + spare names.old }
    ensures leads { (f : ℕ) (id : PageId) → LeadsTo T.page places.now names.new.entries f id }
    ensures spare { 0 < spare names.new }
    ensures room { 2 * size ≤ index_map_len names.new + spare names.new }
{
    if names.len() >= 2 * size as usize {
        enter_all(names, places);
    }
}

// Enters the pages of all places anew.
fn enter_all<T: HoldsPage>(names: &mut Names, places: &[T])
    requires small { length places.now < 2 ^ 32 }
    requires apart { AreApart T.page places.now }
    requires room { 2 * length places.now ≤ index_map_len names.old + spare names.old }
    ensures leads { (f : ℕ) (id : PageId) → LeadsTo T.page places.now names.new.entries f id }
    ensures len { index_map_len names.new ≤ length places.now }
    ensures room { index_map_len names.old + spare names.old ≤ index_map_len names.new + spare names.new }
{
    names.clear();
    for at in 0..places.len() {
        enter_next(names, places, at as u32);
    }
}

// Enters the page of a place, if there is one.
fn enter_next<T: HoldsPage>(names: &mut Names, places: &[T], at: u32)
    requires there { at < length places.now }
    requires apart { AreApart T.page places.now }
    requires room { 0 < spare names.old }
    requires before { (f : ℕ) (id : PageId) → f < at → LeadsTo T.page places.now names.old.entries f id }
    ensures leads { (f : ℕ) (id : PageId) → f < at + 1 → LeadsTo T.page places.now names.new.entries f id }
    ensures room { index_map_len names.old + spare names.old ≤ index_map_len names.new + spare names.new }
    ensures len { index_map_len names.new ≤ index_map_len names.old + 1 }
{
    if let Some(id) = places[at as usize].page() {
        put(names, id, at);
    }
}

fn put(names: &mut Names, id: PageId, at: u32)
    requires { 0 < spare names.old }
    ensures updates { Updates same_key names.old names.new (key_of id) (Some at) }
    ensures room { index_map_len names.old + spare names.old ≤ index_map_len names.new + spare names.new }
    ensures len { index_map_len names.new ≤ index_map_len names.old + 1 }
{
    let key = (id.set, id.number);
    if names.contains_key(&key) {
        if let Some(place) = names.get_mut(&key) {
            *place = at;
        }
    } else {
        let Ok(_) = names.insert(key, at) else {
            unreachable!()
        };
    }
}
