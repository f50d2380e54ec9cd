ghost use Rattle.std.specs.Prelude.{◌≡◌, ℕ, ◌<◌, ◌≤◌, nat_eq, true, find, slice_get, IfOk, IfSome};
ghost use Rattle.std.specs.List.{IsDistinct, range_with_len};
ghost use Rattle.std.specs.Map.{keys_of};
ghost use Rattle.page_index.specs.Uses.{newest, oldest, is_in, may_take, IsOrderOf};

use crate::place::HoldsPage;
use crate::place_hash::PlaceHasher;
use ds_base::NoMemory;
use lru::LruCache;
use std::alloc::Global;
use std::hash::BuildHasherDefault;
use std::marker::Model;
use std::num::NonZeroUsize;

type Uses = LruCache<u32, (), BuildHasherDefault<PlaceHasher>>;

/// The numbers of places, in the order of their use, the one used longest ago first.
///
/// They stay in the list for good, so that no move takes memory. The front of the list is the oldest
/// use, so that a walk from there meets the places in the order in which they are taken.
#[derive(Drop)]
pub struct UseOrder {
    uses: Uses,
}

impl Model for UseOrder {
    ghost use Rattle.std.specs.Prelude.{ℕ, List};
    ghost use Rattle.std.specs.Map.{keys_of};

    ghost Value = { List ℕ };

    ghost view = { λ o. keys_of o.uses.entries };
}

impl UseOrder {
    /// All the numbers below `places`, the least as the oldest.
    pub fn new(alloc: Global, places: u32) -> Result<UseOrder, NoMemory>
        ensures order { IfOk result (λ order. order ≡ range_with_len 0 places) }
        ensures whole { IfOk result (λ order. IsOrderOf places order) }
    {
        let capacity = NonZeroUsize::new(places.max(1) as usize).unwrap();
        let mut uses = LruCache::with_hasher(alloc, capacity, BuildHasherDefault::new())?;
        for done in 0..places {
            uses.put(places - 1 - done, ())?;
        }
        Ok(UseOrder { uses })
    }

    /// Brings the numbers below `places`, which are those in the list, back in the order of `new`.
    pub fn reset(&mut self, places: u32)
        requires { IsOrderOf places self.old }
        ensures order { self.new ≡ range_with_len 0 places }
        ensures whole { IsOrderOf places self.new }
    {
        for done in 0..places {
            self.make_oldest(places - 1 - done);
        }
    }

    /// The place that was used longest ago.
    pub fn oldest(&self) -> Option<u32>
        ensures { result ≡ slice_get self.now 0 }
    {
        self.uses.peek_mru().map(|(&at, _)| at)
    }

    /// The place was used just now.
    pub fn make_newest(&mut self, at: u32)
        requires { is_in at self.old ≡ true }
        ensures order { self.new ≡ newest at self.old }
        ensures whole { (n : ℕ) → at < n → IsOrderOf n self.old → IsOrderOf n self.new }
        ensures distinct { IsDistinct nat_eq self.old }
    {
        // The count tells the proof that no number stands twice.
        let _count = self.uses.len();
        self.uses.demote(&at);
    }

    /// The place counts as used longest ago.
    pub fn make_oldest(&mut self, at: u32)
        requires { is_in at self.old ≡ true }
        ensures order { self.new ≡ oldest at self.old }
        ensures whole { (n : ℕ) → at < n → IsOrderOf n self.old → IsOrderOf n self.new }
    {
        let _count = self.uses.len();
        self.uses.promote(&at);
    }

    /// The place that was used longest ago among those that may be taken.
    pub fn first_to_take<T: HoldsPage>(&self, places: &[T]) -> Option<u32>
        ensures place { result ≡ find (may_take T.may_be_taken places.now) self.now }
        ensures there { (n : ℕ) → IsOrderOf n self.now → IfSome result (λ f. f < n) }
    {
        first_in(&self.uses, places)
    }

    /// No number stands twice.
    pub fn numbers_are_apart(&self)
        ensures { IsDistinct nat_eq self.now }
    {
        // The count tells the proof what the list keeps.
        let _count = self.uses.len();
    }
}

fn first_in<T: HoldsPage>(uses: &Uses, places: &[T]) -> Option<u32>
    ensures { result ≡ find (may_take T.may_be_taken places.now) (keys_of uses.now.entries) }
{
    uses.iter()
        .map(|(&at, _)| at)
        .find(|&at| may_be_taken_at(places, at))
}

fn may_be_taken_at<T: HoldsPage>(places: &[T], at: u32) -> bool
    ensures { result ≡ may_take T.may_be_taken places.now at }
{
    match places.get(at as usize) {
        Some(place) => place.may_be_taken(),
        None => false,
    }
}
