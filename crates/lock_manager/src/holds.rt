//! The claims of one owner: in one chain where they are few, else in chains by their names.

ghost use Rattle.std.specs.Prelude.{◌≡◌, ◌∷◌, ◌+◌, ◌<◌, ◌≤◌, [], length, true, false, is_some, Some, None, IfOk, IfSome, MatchOption, drop, take};
ghost use Rattle.lock_manager.specs.Buckets.{AreDistinct};
ghost use Rattle.lock_manager.specs.Claims.{mode_in, without, with_mode, needs};
ghost use Rattle.lock_manager.specs.Tallies.{count_in};

use crate::buckets::Buckets;
use crate::chain::Chain;
use crate::claim::{Claim, is_class};
use ds_base::NoMemory;
use ds_model::Name;
use lock_names::{Class, Mode, class, entry_of};
use std::alloc::Global;
use std::marker::Model;
use std::mem;

/// Claims of one owner, no two of them on one name.
#[derive(Drop)]
pub struct Holds {
    kind: Kind,
}

#[derive(Drop)]
enum Kind {
    Few(Chain),
    Many(Buckets),
}

impl Model for Holds {
    ghost use Rattle.std.specs.Prelude.{List};
    ghost use Rattle.lock_manager.specs.declared.claim.Claim.{Claim};

    ghost Value = { List Claim };

    ghost use Rattle.lock_manager.specs.Buckets.{AreDistinct};
    ghost use Rattle.lock_manager.specs.Holds.{held_in};

    ghost view = { λ a. held_in a.kind };

    ghost invariant = { λ a. AreDistinct (held_in a.kind) };
}

impl Holds {
    /// No claims, in one chain.
    pub fn new() -> Holds
        ensures { result ≡ [] }
    {
        Holds {
            kind: Kind::Few(Chain::new()),
        }
    }

    /// No claims, in so many chains.
    pub fn with_chains(alloc: Global, chains: u32) -> Result<Holds, NoMemory>
        requires { 1 ≤ chains }
        ensures { IfOk result (λ holds. holds ≡ []) }
    {
        Ok(Holds {
            kind: Kind::Many(Buckets::new(alloc, chains)?),
        })
    }

    /// The mode in which the name is claimed.
    pub fn find(&self, name: &Name) -> Option<Mode>
        ensures { result ≡ mode_in self.now name.now }
    {
        match &self.kind {
            Kind::Few(chain) => chain.find(name),
            Kind::Many(buckets) => buckets.find(name),
        }
    }

    /// Writes another mode into the claim on the name.
    #[tactic(auto, using(crate::proofs::Distinct::distinct_changed))]
    pub fn put(&mut self, name: &Name, mode: Mode)
        requires { is_some (mode_in self.old name.now) ≡ true }
        ensures mode { mode_in self.new name.now ≡ Some mode }
        ensures rest { without self.new name.now ≡ without self.old name.now }
        ensures length { length self.new ≡ length self.old }
        ensures place { self.new ≡ with_mode self.old name.now mode }
    {
        match &mut self.kind {
            Kind::Few(chain) => chain.put(name, mode),
            Kind::Many(buckets) => buckets.put(name, mode),
        }
    }

    /// Puts a claim into a cell, where its name has none; where it is to be the first, before the others.
    #[tactic(auto, using(crate::proofs::Places::inserted_mode, crate::proofs::Places::inserted_rest))]
    pub fn insert(&mut self, cell: Box<Chain>, claim: Claim, is_first: bool)
        requires { is_some (mode_in self.old claim.name) ≡ false }
        ensures mode { mode_in self.new claim.name ≡ Some claim.mode }
        ensures rest { without self.new claim.name ≡ without self.old claim.name }
        ensures length { length self.new ≡ length self.old + 1 }
        ensures place { is_first ≡ true → self.new ≡ claim ∷ self.old }
    {
        if is_first {
            self.insert_first(cell, claim);
        } else {
            self.insert_by_name(cell, claim);
        }
    }

    #[tactic(auto, using(crate::proofs::Distinct::distinct_more))]
    fn insert_first(&mut self, cell: Box<Chain>, claim: Claim)
        requires { is_some (mode_in self.old claim.name) ≡ false }
        ensures { self.new ≡ claim ∷ self.old }
    {
        let mut chain = match &mut self.kind {
            Kind::Few(chain) => mem::replace(chain, Chain::new()),
            Kind::Many(buckets) => buckets.gather(),
        };
        chain.insert(cell, claim);
        self.kind = Kind::Few(chain);
    }

    #[tactic(auto, using(crate::proofs::Distinct::distinct_changed, crate::proofs::Places::inserted_mode, crate::proofs::Places::inserted_rest))]
    fn insert_by_name(&mut self, cell: Box<Chain>, claim: Claim)
        requires { is_some (mode_in self.old claim.name) ≡ false }
        ensures mode { mode_in self.new claim.name ≡ Some claim.mode }
        ensures rest { without self.new claim.name ≡ without self.old claim.name }
        ensures length { length self.new ≡ length self.old + 1 }
    {
        match &mut self.kind {
            Kind::Few(chain) => chain.insert(cell, claim),
            Kind::Many(buckets) => buckets.insert(cell, claim),
        }
    }

    /// Takes out the claim on the name, and gives its cell.
    #[tactic(auto, using(crate::proofs::Distinct::distinct_removed))]
    pub fn remove(&mut self, name: &Name) -> Option<Box<Chain>>
        ensures chain { self.new ≡ without self.old name.now }
        ensures cell { is_some result ≡ is_some (mode_in self.old name.now) }
    {
        match &mut self.kind {
            Kind::Few(chain) => chain.remove(name),
            Kind::Many(buckets) => buckets.remove(name),
        }
    }

    /// Takes out the first claim, and gives its cell too.
    #[tactic(auto, using(crate::proofs::Distinct::distinct_popped))]
    pub fn pop(&mut self) -> Option<(Claim, Box<Chain>)>
        ensures { MatchOption result ((self.old ≡ []) × (self.new ≡ [])) (λ popped. self.old ≡ popped.0 ∷ self.new) }
    {
        match &mut self.kind {
            Kind::Few(chain) => chain.pop(),
            Kind::Many(buckets) => buckets.pop(),
        }
    }

    /// The claim at this place, whose name no later one is on.
    #[tactic(auto, using(crate::proofs::Distinct::distinct_at, crate::proofs::Distinct::nothing_beyond))]
    pub fn nth(&self, place: usize) -> Option<Claim>
        ensures claim { MatchOption result (drop place self.now ≡ []) (λ claim. drop place self.now ≡ claim ∷ drop (place + 1) self.now) }
        ensures only { IfSome result (λ claim. mode_in (drop (place + 1) self.now) claim.name ≡ None) }
    {
        match &self.kind {
            Kind::Few(chain) => match chain.nth(place) {
                Ok(claim) => Some(claim),
                Err(_beyond) => None,
            },
            Kind::Many(buckets) => buckets.nth(place),
        }
    }

    /// How many of so many first claims are of this class and fall on this entry of the lock table.
    #[tactic(auto, using(crate::proofs::Tallies::count_more, crate::proofs::Tallies::count_end))]
    pub fn count_first(&self, most: usize, entries: u32, entry: u32, needed: Class) -> u64
        requires { 0 < entries }
        ensures { result ≡ count_in entries entry needed (take most self.now) }
    {
        let mut count = 0;
        for place in 0..most {
            let Some(claim) = self.nth(place) else {
                return count;
            };
            if is_counted(&claim, entries, entry, needed) {
                count += 1;
            }
        }
        count
    }

    /// No two of the claims are on one name.
    pub fn are_apart(&self)
        ensures { AreDistinct self.now }
    {
        let _kind = &self.kind;
    }

    /// Lets go of the place of an owner that is over.
    pub fn end(self) {}
}

/// Whether the claim is of this class and falls on this entry of the lock table.
fn is_counted(claim: &Claim, entries: u32, entry: u32, needed: Class) -> bool
    requires { 0 < entries }
    ensures { result ≡ needs entries entry needed claim.now }
{
    entry_of(&claim.name, entries) == entry && is_class(class(claim.mode), needed)
}
