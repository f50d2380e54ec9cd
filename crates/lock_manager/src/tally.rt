//! How many claims of each class fall on each entry of the lock table.

ghost use Rattle.std.specs.Prelude.{◌≡◌, ◌+◌, ◌<◌, ◌≤◌, ◌^◌, ℕ, replicate, IfOk, nat_lt};
ghost use Rattle.lock_names.specs.Entries.{entry_number};
ghost use Rattle.lock_names.specs.Modes.{class_of};
ghost use Rattle.lock_manager.specs.declared.claim.Claim.{Claim};
ghost use Rattle.lock_names.specs.declared.mode.Class.{Class};
ghost use Rattle.lock_manager.specs.Tallies.{tallied, counted};

use crate::claim::Claim;
use ds_base::NoMemory;
use ds_model::Name;
use lock_names::{Class, Interest, class, entry_of};
use std::alloc::Global;
use std::marker::Model;

/// The numbers of claims by their entries, one list a class.
#[derive(Drop)]
pub struct Tally {
    entries: u32,
    share: Vec<u64>,
    exclusive: Vec<u64>,
}

impl Model for Tally {
    ghost use Rattle.std.specs.Prelude.{◌≡◌, ◌≤◌, length};
    ghost use Rattle.lock_manager.specs.Tallies.{Tallied};

    ghost Value = { Tallied };

    ghost view = { λ a. record { entries = a.entries; share = a.share.items; exclusive = a.exclusive.items } };

    ghost invariant = { λ a. (1 ≤ a.entries) × (length a.share.items ≡ a.entries) × (length a.exclusive.items ≡ a.entries) };
}

fn zeros(alloc: Global, count: u32) -> Result<Vec<u64>, NoMemory>
    ensures { IfOk result (λ zeros. zeros.items ≡ replicate count 0) }
{
    let mut zeros = Vec::with_capacity(alloc, count as usize)?;
    for _made in 0..count {
        zeros.push_reserved(0);
    }
    Ok(zeros)
}

impl Tally {
    /// No claims.
    pub fn new(alloc: Global, entries: u32) -> Result<Tally, NoMemory>
        requires { 1 ≤ entries }
        ensures entries { IfOk result (λ tally. tally.entries ≡ entries) }
        ensures none { IfOk result (λ tally. (tally.share ≡ replicate entries 0) × (tally.exclusive ≡ replicate entries 0)) }
    {
        Ok(Tally {
            entries,
            share: zeros(alloc, entries)?,
            exclusive: zeros(alloc, entries)?,
        })
    }

    /// Counts one more claim.
    pub fn enter(&mut self, claim: &Claim)
        requires { tallied self.old (class_of claim.now.mode) (entry_number claim.now.name self.old.entries) < 2 ^ 63 }
        ensures entries { self.new.entries ≡ self.old.entries }
        ensures counts { (class : Class) (entry : ℕ) → tallied self.new class entry ≡ tallied self.old class entry + counted self.old.entries entry class claim.now }
    {
        let at = entry_of(&claim.name, self.entries) as usize;
        match class(claim.mode) {
            Class::Share => self.share[at] += 1,
            Class::Exclusive => self.exclusive[at] += 1,
        }
    }

    /// Counts one claim less.
    pub fn leave(&mut self, claim: &Claim)
        requires { 0 < tallied self.old (class_of claim.now.mode) (entry_number claim.now.name self.old.entries) }
        ensures entries { self.new.entries ≡ self.old.entries }
        ensures counts { (class : Class) (entry : ℕ) → tallied self.new class entry + counted self.old.entries entry class claim.now ≡ tallied self.old class entry }
    {
        let at = entry_of(&claim.name, self.entries) as usize;
        match class(claim.mode) {
            Class::Share => self.share[at] -= 1,
            Class::Exclusive => self.exclusive[at] -= 1,
        }
    }

    /// Whether more than so many claims of the class fall on the name's entry.
    pub fn is_above(&self, name: &Name, class: Class, least: u64) -> bool
        ensures { result ≡ nat_lt least (tallied self.now class (entry_number name.now self.now.entries)) }
    {
        let at = entry_of(name, self.entries) as usize;
        match class {
            Class::Share => least < self.share[at],
            Class::Exclusive => least < self.exclusive[at],
        }
    }

    /// The classes of the claims that fall on the name's entry.
    pub fn interest(&self, name: &Name) -> Interest
        ensures share { result.share ≡ nat_lt 0 (tallied self.now Class.Share (entry_number name.now self.now.entries)) }
        ensures exclusive { result.exclusive ≡ nat_lt 0 (tallied self.now Class.Exclusive (entry_number name.now self.now.entries)) }
    {
        let at = entry_of(name, self.entries) as usize;
        Interest {
            share: self.share[at] > 0,
            exclusive: self.exclusive[at] > 0,
        }
    }
}
