//! The claims of one owner, in chains by their names.

ghost use Rattle.std.specs.Prelude.{◌≡◌, ◌∷◌, ◌+◌, ◌<◌, ◌≤◌, ◌^◌, [], length, true, false, is_some, Some, IfOk, IfSome, IsNone, MatchOption, take, drop, slice_index_or, ◌≢◌};
ghost use Rattle.lock_manager.specs.Buckets.{all_in};
ghost use Rattle.lock_manager.specs.Claims.{mode_in, without, with_mode};

use crate::chain::Chain;
use crate::claim::Claim;
use ds_base::NoMemory;
use ds_model::Name;
use lock_names::{Mode, entry_of};
use std::alloc::Global;
use std::marker::Model;

/// Claims of one owner, in chains on which their names fall by a hash.
#[derive(Drop)]
pub struct Buckets {
    chains: Vec<Chain>,
}

impl Model for Buckets {
    ghost use Rattle.std.specs.Prelude.{List};
    ghost use Rattle.lock_manager.specs.declared.claim.Claim.{Claim};

    ghost Value = { List Claim };

    ghost use Rattle.lock_manager.specs.Buckets.{all_in, HasBuckets};

    ghost view = { λ a. all_in a.chains.items };

    ghost invariant = { λ a. HasBuckets a.chains.items };
}

impl Buckets {
    /// No claims, in so many chains.
    #[tactic(auto, using(crate::proofs::Places::start_all, crate::proofs::Places::start_buckets))]
    pub fn new(alloc: Global, chains: u32) -> Result<Buckets, NoMemory>
        requires { 1 ≤ chains }
        ensures { IfOk result (λ made. made ≡ []) }
    {
        let mut made = Vec::with_capacity(alloc, chains as usize)?;
        for _made in 0..chains {
            made.push_reserved(Chain::new());
        }
        Ok(Buckets { chains: made })
    }

    /// The mode in which the name is claimed.
    #[tactic(auto, using(crate::proofs::Places::found_in))]
    pub fn find(&self, name: &Name) -> Option<Mode>
        ensures { result ≡ mode_in self.now name.now }
    {
        let at = entry_of(name, self.chains.len() as u32) as usize;
        self.chains[at].find(name)
    }

    /// Writes another mode into the claim on the name.
    #[tactic(auto, using(crate::proofs::Places::changed_mode, crate::proofs::Places::changed_rest, crate::proofs::Places::changed_length, crate::proofs::Places::changed_buckets, crate::proofs::Places::found_in, crate::proofs::Places::changed_place))]
    pub fn put(&mut self, name: &Name, mode: Mode)
        requires { is_some (mode_in self.old name.now) ≡ true }
        ensures mode { mode_in self.new name.now ≡ Some mode }
        ensures rest { without self.new name.now ≡ without self.old name.now }
        ensures length { length self.new ≡ length self.old }
        ensures place { self.new ≡ with_mode self.old name.now mode }
    {
        let at = entry_of(name, self.chains.len() as u32) as usize;
        self.chains[at].put(name, mode);
    }

    /// Puts a claim into a cell, where its name has none.
    #[tactic(auto, using(crate::proofs::Places::changed_mode, crate::proofs::Places::changed_rest, crate::proofs::Places::changed_length, crate::proofs::Places::changed_buckets, crate::proofs::Places::found_in, crate::proofs::Places::inserted_mode, crate::proofs::Places::inserted_rest))]
    pub fn insert(&mut self, cell: Box<Chain>, claim: Claim)
        requires { is_some (mode_in self.old claim.name) ≡ false }
        ensures mode { mode_in self.new claim.name ≡ Some claim.mode }
        ensures rest { without self.new claim.name ≡ without self.old claim.name }
        ensures length { length self.new ≡ length self.old + 1 }
    {
        let at = entry_of(&claim.name, self.chains.len() as u32) as usize;
        self.chains[at].insert(cell, claim);
    }

    /// Takes out the claim on the name, and gives its cell.
    #[tactic(auto, using(crate::proofs::Places::removed_rest, crate::proofs::Places::removed_buckets, crate::proofs::Places::found_in))]
    pub fn remove(&mut self, name: &Name) -> Option<Box<Chain>>
        ensures chain { self.new ≡ without self.old name.now }
        ensures cell { is_some result ≡ is_some (mode_in self.old name.now) }
    {
        let at = entry_of(name, self.chains.len() as u32) as usize;
        self.chains[at].remove(name)
    }

    /// The claim at this place.
    pub fn nth(&self, place: usize) -> Option<Claim>
        ensures { MatchOption result (drop place self.now ≡ []) (λ claim. drop place self.now ≡ claim ∷ drop (place + 1) self.now) }
    {
        nth_in(self.chains.as_slice(), place)
    }

    /// Takes out the first claim, and gives its cell too.
    #[tactic(auto, using(crate::proofs::Places::popped_first, crate::proofs::Places::popped_buckets))]
    pub fn pop(&mut self) -> Option<(Claim, Box<Chain>)>
        ensures { MatchOption result ((self.old ≡ []) × (self.new ≡ [])) (λ popped. self.old ≡ popped.0 ∷ self.new) }
    {
        let at = first_in_use(self.chains.as_slice())?;
        self.chains[at].pop()
    }

    /// Takes out all claims, into one chain in their order.
    pub fn gather(&mut self) -> Chain
        ensures { result ≡ self.old }
    {
        let mut gathered = Chain::new();
        while let Some((claim, cell)) = self.pop() {
            gathered.insert(cell, claim);
        }
        gathered.reversed()
    }
}

/// The first chain with a claim.
#[tactic(auto, using(crate::proofs::Places::empty_more))]
fn first_in_use(chains: &[Chain]) -> Option<usize>
    ensures none { IsNone result → all_in chains.now ≡ [] }
    ensures first { IfSome result (λ k. (k < length chains.now) × (all_in (take k chains.now) ≡ []) × (slice_index_or chains.now k [] ≢ [])) }
{
    for (at, chain) in chains.iter().enumerate() {
        if !chain.is_empty() {
            return Some(at);
        }
    }
    None
}

/// The claim at this place, one chain after the other.
#[tactic(auto, using(crate::proofs::Places::nth_here, crate::proofs::Places::nth_beyond))]
fn nth_in(chains: &[Chain], place: usize) -> Option<Claim>
    ensures { MatchOption result (drop place (all_in chains.now) ≡ []) (λ claim. drop place (all_in chains.now) ≡ claim ∷ drop (place + 1) (all_in chains.now)) }
{
    let mut left = place;
    for chain in chains {
        match chain.nth(left) {
            Ok(claim) => return Some(claim),
            Err(beyond) => left = beyond,
        }
    }
    None
}
