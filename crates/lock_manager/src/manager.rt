ghost use Rattle.std.specs.Prelude.{◌≡◌, ◌≢◌, ◌+◌, ◌<◌, ◌≤◌, ◌^◌, ◌==◌, ◌||◌, ◌&&◌, not, [], length, true, false, is_some, nat_lt, if◌then◌else◌, replicate, slice_index_or, slice_set, IfOk, IfSome, MatchOption, ◌∷◌, OnOk, OnErr, None, Some, IsTrue, vec_capacity, drop, ℕ};
ghost use Rattle.lock_names.specs.Entries.{entry_number};
ghost use Rattle.lock_manager.specs.Holders.{kept, first_in_way, any_needs, is_held};
ghost use Rattle.lock_manager.specs.Managers.{ask_of, answer_of, claims_of, held_by, IsGiven, after_release, release_told, after_page_release, after_postpone, waiting_at, place_in, is_postponed, after_postponed_release, postponed_told, slots, waited_for, with_claims, page_told, ended, given, dropped, held_postponed, postponed_for, held_by_member, emptied};
ghost use Rattle.lock_manager.specs.Buckets.{AreDistinct};
ghost use Rattle.lock_manager.specs.Claims.{without, mode_in};

use crate::chain::Chain;
use crate::claim::{Ask, Claim, LockAnswer, Rollback, is_class, is_covered, joined};
use crate::holds::Holds;
use crate::scan::{first_in_the_way, is_held, mode_of_all};
use crate::tally::Tally;
use ds_base::{Lrsn, MemberId, NoMemory};
use ds_model::Name;
use lock_names::{Class, Interest, Mode, class, entry_of};
use record_area::Area;
use std::alloc::Global;
use std::marker::Model;
use std::mem;

/// The claims of a member: those of its agents, by their slots, and those of its postponed rollbacks.
///
/// Slot 0 is the member itself, which claims pages and page sets. Nothing but `new` and `reserve` takes memory.
#[derive(Drop)]
pub struct LockManager {
    holders: Vec<Holds>,
    rollbacks: Vec<Rollback>,
    agents: u8,
    entries: u32,
    own_cells: Area<Chain>,
    cells: Area<Chain>,
    room: usize,
    tally: Tally,
}

impl Model for LockManager {
    ghost use Rattle.std.specs.Prelude.{◌+◌, ◌≤◌, vec_len, vec_capacity};
    ghost use Rattle.lock_manager.specs.Managers.{Book, HasRoom};
    ghost use Rattle.lock_manager.specs.Tallies.{IsCounted};

    ghost Value = { Book };

    ghost view = { λ a. record { holders = a.holders.items; rollbacks = a.rollbacks.items; agents = a.agents; entries = a.entries; pages = a.own_cells.size; spare = a.cells.free; room = a.room } };

    ghost invariant = { λ a. (1 ≤ a.entries) × (HasRoom a.holders.items a.rollbacks.items a.agents a.own_cells a.cells × (vec_len a.holders + a.room ≤ vec_capacity a.holders) × (vec_len a.rollbacks + a.room ≤ vec_capacity a.rollbacks)) × IsCounted a.entries a.holders.items a.own_cells a.cells a.tally };
}

/// As many owners without claims, and places for more. The first of them may have many claims.
fn no_claims(alloc: Global, owners: usize, more: usize, pages: u32) -> Result<Vec<Holds>, NoMemory>
    requires { (1 ≤ owners) × (owners + more < 1024) }
    ensures claims { IfOk result (λ holders. holders.items ≡ replicate owners []) }
    ensures places { IfOk result (λ holders. owners + more ≤ vec_capacity holders) }
{
    let mut holders = Vec::with_capacity(alloc, owners + more)?;
    holders.push_reserved(Holds::with_chains(alloc, pages / 2 + 1)?);
    for _made in 1..owners {
        holders.push_reserved(Holds::new());
    }
    Ok(holders)
}

/// The place of a postponed rollback among them.
#[tactic(auto, using(crate::proofs::Scans::place_step))]
fn place_of(rollbacks: &[Rollback], id: Lrsn) -> Option<usize>
    ensures place { result ≡ place_in rollbacks.now 0 id }
    ensures there { IfSome result (λ k. k < length rollbacks.now) }
{
    for (at, rollback) in rollbacks.iter().enumerate() {
        if rollback.id.number() == id.number() {
            return Some(at);
        }
    }
    None
}

fn is_none(interest: &Interest) -> bool
    ensures { result ≡ (not interest.now.share && not interest.now.exclusive) }
{
    !interest.share && !interest.exclusive
}

/// Makes room for a claim.
fn take_cell(owner: usize, own_cells: &mut Area<Chain>, cells: &mut Area<Chain>) -> Box<Chain>
    requires { 0 < (if owner == 0 then own_cells.old.free else cells.old.free) }
    ensures own { own_cells.new.free + (if owner == 0 then 1 else 0) ≡ own_cells.old.free }
    ensures others { cells.new.free + (if owner == 0 then 0 else 1) ≡ cells.old.free }
    ensures own_size { own_cells.new.size ≡ own_cells.old.size }
    ensures others_size { cells.new.size ≡ cells.old.size }
{
    if owner == 0 {
        own_cells.take()
    } else {
        cells.take()
    }
}

/// Gives back the room of a claim.
fn give_back(owner: usize, cell: Box<Chain>, own_cells: &mut Area<Chain>, cells: &mut Area<Chain>)
    requires own { owner ≡ 0 → own_cells.old.free < own_cells.old.size }
    requires others { owner ≢ 0 → cells.old.free < cells.old.size }
    ensures own { own_cells.new.free ≡ own_cells.old.free + (if owner == 0 then 1 else 0) }
    ensures others { cells.new.free ≡ cells.old.free + (if owner == 0 then 0 else 1) }
    ensures own_size { own_cells.new.size ≡ own_cells.old.size }
    ensures others_size { cells.new.size ≡ cells.old.size }
{
    if owner == 0 {
        own_cells.give_back(cell);
    } else {
        cells.give_back(cell);
    }
}

impl LockManager {
    /// No claims, with room for `pages` of slot 0. The slots are 0 to `agents`, and `entries` is the size of the group's
    /// lock table.
    pub fn new(alloc: Global, agents: u8, entries: u32, pages: u32) -> Result<LockManager, NoMemory>
        requires { 1 ≤ entries }
        ensures holders { IfOk result (λ made. made.holders ≡ replicate (agents + 1) []) }
        ensures rollbacks { IfOk result (λ made. made.rollbacks ≡ []) }
        ensures sizes { IfOk result (λ made. (made.agents ≡ agents) × (made.entries ≡ entries) × (made.pages ≡ pages)) }
        ensures room { IfOk result (λ made. (1 ≤ made.spare) × (agents ≤ made.room)) }
    {
        let most = agents as usize;
        Ok(LockManager {
            holders: no_claims(alloc, most + 1, most, pages)?,
            rollbacks: Vec::with_capacity(alloc, most)?,
            agents,
            entries,
            own_cells: Area::new(alloc, pages)?,
            cells: Area::new(alloc, 1)?,
            room: most,
            tally: Tally::new(alloc, entries)?,
        })
    }

    fn slots(&self) -> usize
        ensures slots { result ≡ slots self.now }
        ensures few { result ≤ 256 }
        ensures owners { length self.now.holders ≡ result + length self.now.rollbacks }
        ensures claims { (owner : ℕ) → length (claims_of self.now owner) < 2 ^ 63 }
    {
        let _rollbacks = self.rollbacks.len();
        self.agents as usize + 1
    }

    /// What the agent of the slot is told that needs the name in this mode.
    #[tactic(auto, using(crate::proofs::Free::free_asked))]
    pub fn ask(&self, owner: u8, name: &Name, mode: Mode) -> Ask
        requires { owner ≤ self.now.agents }
        ensures { result ≡ ask_of self.now owner name.now mode }
    {
        if self.is_free(name) {
            return Ask::Facility { mode };
        }
        let slots = self.slots();
        let held = self.holders[owner as usize].find(name);
        if is_covered(held, mode) {
            return Ask::Have;
        }
        let mode = joined(held, mode);
        match first_in_the_way(self.holders.as_slice(), Some(owner), name, mode) {
            Some(at) if at < slots => Ask::Conflict { by: at as u8 },
            Some(at) => Ask::Postponed {
                member: self.rollbacks[at - slots].by,
            },
            None if is_covered(mode_of_all(self.holders.as_slice(), name), mode) => Ask::Local,
            None => Ask::Facility { mode },
        }
    }

    /// The mode in which the agent of the slot holds the name.
    pub fn holds(&self, owner: u8, name: &Name) -> Option<Mode>
        requires { owner ≤ self.now.agents }
        ensures { result ≡ held_by self.now owner name.now }
    {
        let _slots = self.slots();
        self.held_at(owner as usize, name)
    }

    // The mode in which the owner holds the name.
    #[tactic(auto, using(crate::proofs::Free::free_held))]
    fn held_at(&self, owner: usize, name: &Name) -> Option<Mode>
        requires { owner < length self.now.holders }
        ensures { result ≡ held_by self.now owner name.now }
    {
        if self.is_free(name) {
            return None;
        }
        self.holders[owner].find(name)
    }

    /// The mode in which the postponed rollback of the transaction holds the name.
    pub fn holds_rollback(&self, id: Lrsn, name: &Name) -> Option<Mode>
        ensures { result ≡ held_postponed self.now (place_in self.now.rollbacks 0 id) name.now }
    {
        let at = place_of(self.rollbacks.as_slice(), id)?;
        let place = self.slots() + at;
        self.holders[place].find(name)
    }

    /// The mode in which the member holds the name: the join of those of all owners.
    #[tactic(auto, using(crate::proofs::Free::free_of_all))]
    pub fn mode_of_all(&self, name: &Name) -> Option<Mode>
        ensures { result ≡ held_by_member self.now name.now }
    {
        if self.is_free(name) {
            return None;
        }
        mode_of_all(self.holders.as_slice(), name)
    }

    /// Whether an owner holds the name.
    pub fn is_held(&self, name: &Name) -> bool
        ensures { result ≡ is_held self.now.holders name.now }
    {
        !self.is_free(name) && self.is_among(name)
    }

    // Looks through the owners.
    #[tactic(auto, using(crate::proofs::Rooms::same_set))]
    fn is_among(&self, name: &Name) -> bool
        ensures { result ≡ is_held self.now.holders name.now }
    {
        let _slots = self.slots();
        is_held(self.holders.as_slice(), 0, &self.holders[0], name)
    }

    // Whether no claim falls on the name's entry.
    #[tactic(auto, using(crate::proofs::Free::nothing_kept))]
    fn is_free(&self, name: &Name) -> bool
        ensures { result ≡ true → is_held self.now.holders name.now ≡ false }
    {
        is_none(&self.interest(name))
    }

    // The interest that the name's entry keeps, where nobody holds the name.
    #[tactic(auto, using(crate::proofs::Free::nothing_kept))]
    fn interest_if_freed(&self, name: &Name) -> Option<Interest>
        ensures { MatchOption result (is_held self.now.holders name.now ≡ true) (λ interest. (is_held self.now.holders name.now ≡ false) × (interest ≡ kept self.now.entries self.now.holders (entry_number name.now self.now.entries))) }
    {
        let interest = self.interest(name);
        if is_none(&interest) || !self.is_among(name) {
            return Some(interest);
        }
        None
    }

    /// What another member is told that needs the name in this mode.
    #[tactic(auto, using(crate::proofs::Free::free_answered))]
    pub fn answer(&self, name: &Name, mode: Mode) -> LockAnswer
        ensures { result ≡ answer_of self.now name.now mode }
    {
        if self.is_free(name) {
            return LockAnswer::Clean;
        }
        let slots = self.slots();
        match first_in_the_way(self.holders.as_slice(), None, name, mode) {
            Some(at) if at < slots => LockAnswer::Conflict { by: at as u8 },
            Some(at) => LockAnswer::Postponed {
                member: self.rollbacks[at - slots].by,
            },
            None => LockAnswer::Clean,
        }
    }

    /// How many claims slot 0 has.
    pub fn page_count(&self) -> u32
        ensures { result ≡ length (claims_of self.now 0) }
    {
        (self.own_cells.size() - self.own_cells.free()) as u32
    }

    /// Whether there is room for one more claim of slot 0.
    pub fn has_page_room(&self) -> bool
        ensures { result ≡ nat_lt (length (claims_of self.now 0)) self.now.pages }
    {
        !self.own_cells.is_full()
    }

    /// For how many more claims of agents there is room.
    pub fn spare(&self) -> usize
        ensures { result ≡ self.now.spare }
    {
        self.cells.free()
    }

    /// For how many more postponed rollbacks there is room.
    pub fn room(&self) -> usize
        ensures { result ≡ self.now.room }
    {
        self.room
    }

    /// Makes room for two more claims of agents, as many as one event enters, and for the rollbacks of all agents.
    pub fn reserve(&mut self) -> Result<(), NoMemory>
        ensures enough { OnOk result ((2 ≤ self.new.spare) × (self.new.agents ≤ self.new.room)) }
        ensures rest { self.new ≡ record self.old { spare = self.new.spare; room = self.new.room } }
        ensures more { (self.old.spare ≤ self.new.spare) × (self.old.room ≤ self.new.room) }
    {
        self.reserve_rollbacks(self.agents as u32)?;
        self.reserve_claims(2)
    }

    /// Makes room for so many more claims of agents.
    pub fn reserve_claims(&mut self, count: u32) -> Result<(), NoMemory>
        ensures enough { OnOk result (count ≤ self.new.spare) }
        ensures rest { self.new ≡ record self.old { spare = self.new.spare } }
        ensures more { self.old.spare ≤ self.new.spare }
    {
        while self.cells.free() < count as usize {
            self.add_cell()?;
        }
        Ok(())
    }

    fn add_cell(&mut self) -> Result<(), NoMemory>
        ensures more { OnOk result (self.new ≡ record self.old { spare = self.old.spare + 1 }) }
        ensures same { OnErr result (self.new ≡ self.old) }
    {
        self.cells.grow()
    }

    /// Makes room for so many more postponed rollbacks.
    pub fn reserve_rollbacks(&mut self, count: u32) -> Result<(), NoMemory>
        ensures enough { OnOk result (count ≤ self.new.room) }
        ensures rest { self.new ≡ record self.old { room = self.new.room } }
        ensures more { self.old.room ≤ self.new.room }
    {
        let most = count as usize;
        if self.room < most {
            self.holders.reserve(most)?;
            self.rollbacks.reserve(most)?;
            self.room = most;
        }
        Ok(())
    }

    /// Enters a claim of the agent of the slot.
    pub fn give(&mut self, owner: u8, name: &Name, mode: Mode)
        requires owner { owner ≤ self.old.agents }
        requires own { owner ≡ 0 → is_some (held_by self.old 0 name.now) ≡ false → length (claims_of self.old 0) < self.old.pages }
        requires spare { owner ≢ 0 → 1 ≤ self.old.spare }
        ensures given { IsGiven self.old owner name.now mode self.new }
        ensures exact { owner ≢ 0 → self.new ≡ given self.old owner name.now mode }
    {
        let _slots = self.slots();
        let at = owner as usize;
        let held = self.held_at(at, name);
        let joint = joined(held, mode);
        let name = *name;
        let claim = Claim { name, mode: joint };
        if let Some(mode) = held {
            self.holders[at].put(&name, claim.mode);
            self.tally.leave(&Claim { name, mode });
            self.tally.enter(&claim);
        } else {
            let cell = take_cell(at, &mut self.own_cells, &mut self.cells);
            self.holders[at].insert(cell, claim, at != 0);
            self.tally.enter(&claim);
        }
    }
}

impl LockManager {
    /// The interest that the name's entry keeps where this owner has given up so many of its first claims.
    fn interest_after(&self, owner: usize, gone: usize, name: &Name) -> Interest
        requires { owner < length self.now.holders }
        ensures { result ≡ kept self.now.entries (slice_set self.now.holders owner (drop gone (claims_of self.now owner))) (entry_number name.now self.now.entries) }
    {
        let entry = entry_of(name, self.entries);
        let holder = &self.holders[owner];
        let share = holder.count_first(gone, self.entries, entry, Class::Share);
        let exclusive = holder.count_first(gone, self.entries, entry, Class::Exclusive);
        Interest {
            share: self.tally.is_above(name, Class::Share, share),
            exclusive: self.tally.is_above(name, Class::Exclusive, exclusive),
        }
    }

    /// The interest that the name's entry keeps.
    fn interest(&self, name: &Name) -> Interest
        ensures { result ≡ kept self.now.entries self.now.holders (entry_number name.now self.now.entries) }
    {
        self.tally.interest(name)
    }

    /// Gives up the first claim that the owner has.
    fn give_up_first(&mut self, owner: usize) -> Option<Claim>
        requires { owner < length self.old.holders }
        ensures claim { MatchOption result ((claims_of self.old owner ≡ []) × (self.new ≡ self.old)) (λ claim. claims_of self.old owner ≡ claim ∷ claims_of self.new owner) }
        ensures rest { self.new ≡ with_claims self.old owner (claims_of self.new owner) }
    {
        let (claim, cell) = self.holders[owner].pop()?;
        give_back(owner, cell, &mut self.own_cells, &mut self.cells);
        self.tally.leave(&claim);
        Some(claim)
    }

    fn release_at(&mut self, owner: usize) -> Option<(Name, Interest)>
        requires { owner < length self.old.holders }
        ensures told { result ≡ release_told self.old owner }
        ensures left { self.new ≡ after_release self.old owner }
    {
        while let Some(claim) = self.give_up_first(owner) {
            if let Some(interest) = self.interest_if_freed(&claim.name) {
                return Some((claim.name, interest));
            }
        }
        None
    }

    // The interest that the name's entry keeps where the owner has given up so many of its first claims and nobody holds
    // the name then.
    #[tactic(auto, using(crate::proofs::Free::nothing_kept, crate::proofs::Distinct::held_by_others))]
    fn interest_if_passed(&self, owner: usize, passed: usize, name: &Name) -> Option<Interest>
        requires there { owner < length self.now.holders }
        requires only { mode_in (drop passed (claims_of self.now owner)) name.now ≡ None }
        ensures { let left = slice_set self.now.holders owner (drop passed (claims_of self.now owner)) in MatchOption result (is_held left name.now ≡ true) (λ interest. (is_held left name.now ≡ false) × (interest ≡ kept self.now.entries left (entry_number name.now self.now.entries))) }
    {
        let interest = self.interest_after(owner, passed, name);
        if is_none(&interest) || !self.is_with_others(owner, name) {
            return Some(interest);
        }
        None
    }

    // Whether another owner holds the name.
    fn is_with_others(&self, owner: usize, name: &Name) -> bool
        requires { owner < length self.now.holders }
        ensures { result ≡ is_held (slice_set self.now.holders owner []) name.now }
    {
        is_held(self.holders.as_slice(), owner, &Holds::new(), name)
    }

    fn releasing_at(&self, owner: usize) -> Option<(Name, Interest)>
        requires { owner < length self.now.holders }
        ensures { result ≡ release_told self.now owner }
    {
        let _slots = self.slots();
        let mut passed = 0;
        while let Some(claim) = self.holders[owner].nth(passed) {
            passed += 1;
            if let Some(interest) = self.interest_if_passed(owner, passed, &claim.name) {
                return Some((claim.name, interest));
            }
        }
        None
    }

    /// Gives up claims of the agent of the slot, up to the first whose name the member then holds no longer: that name,
    /// with the interest that the member keeps in its entry. Where there is none, the agent has no claims left.
    pub fn release(&mut self, owner: u8) -> Option<(Name, Interest)>
        requires { owner ≤ self.old.agents }
        ensures told { result ≡ release_told self.old owner }
        ensures left { self.new ≡ after_release self.old owner }
    {
        let _slots = self.slots();
        self.release_at(owner as usize)
    }

    #[tactic(auto, using(crate::proofs::Resets::emptied_with))]
    fn drop_at(&mut self, owner: usize)
        requires { owner < length self.old.holders }
        ensures left { self.new ≡ with_claims self.old owner [] }
        ensures same { emptied self.new ≡ emptied self.old }
    {
        while let Some(_claim) = self.give_up_first(owner) {}
    }

    /// Gives up all claims of the agent of the slot.
    pub fn drop_all(&mut self, owner: u8)
        requires { owner ≤ self.old.agents }
        ensures { self.new ≡ with_claims self.old owner [] }
    {
        let _slots = self.slots();
        self.drop_at(owner as usize);
    }

    /// What `release` would answer now.
    pub fn releasing(&self, owner: u8) -> Option<(Name, Interest)>
        requires { owner ≤ self.now.agents }
        ensures { result ≡ release_told self.now owner }
    {
        let _slots = self.slots();
        self.releasing_at(owner as usize)
    }

    fn give_up_page(&mut self, name: &Name)
        requires { is_some (held_by self.old 0 name.now) ≡ true }
        ensures { self.new ≡ after_page_release self.old name.now }
    {
        let _slots = self.slots();
        let Some(mode) = self.holders[0].find(name) else {
            return;
        };
        let Some(cell) = self.holders[0].remove(name) else {
            return;
        };
        give_back(0, cell, &mut self.own_cells, &mut self.cells);
        let name = *name;
        self.tally.leave(&Claim { name, mode });
    }

    /// Gives up the claim of slot 0 on the name: the interest that the member keeps in its entry.
    pub fn release_page(&mut self, name: &Name) -> Interest
        requires { is_some (held_by self.old 0 name.now) ≡ true }
        ensures told { result ≡ page_told self.old name.now }
        ensures left { self.new ≡ after_page_release self.old name.now }
    {
        self.give_up_page(name);
        self.interest(name)
    }

    /// What `release_page` would answer now.
    pub fn releasing_page(&self, name: &Name) -> Interest
        requires { is_some (held_by self.now 0 name.now) ≡ true }
        ensures { result ≡ page_told self.now name.now }
    {
        let _slots = self.slots();
        let held = self.holders[0].find(name);
        Interest {
            share: self.is_needed_without(name, held, Class::Share),
            exclusive: self.is_needed_without(name, held, Class::Exclusive),
        }
    }

    /// Whether the member needs this interest in the name's entry, also without the claim of slot 0 on the name.
    fn is_needed_without(&self, name: &Name, held: Option<Mode>, needed: Class) -> bool
        requires owner { 0 < length self.now.holders }
        requires held { held ≡ held_by self.now 0 name.now }
        ensures { result ≡ any_needs self.now.entries (entry_number name.now self.now.entries) needed (slice_set self.now.holders 0 (without (claims_of self.now 0) name.now)) }
    {
        let gone = match held {
            Some(mode) if is_class(class(mode), needed) => 1,
            _ => 0,
        };
        self.tally.is_above(name, needed, gone)
    }
}

impl LockManager {
    /// Makes the agent's claims those of the postponed rollback of the transaction, which waits for a member.
    pub fn postpone(&mut self, owner: u8, id: Lrsn, by: MemberId)
        requires owner { (1 ≤ owner) × (owner ≤ self.old.agents) }
        requires room { 1 ≤ self.old.room }
        ensures { self.new ≡ after_postpone self.old owner id by }
    {
        let _slots = self.slots();
        let claims = mem::replace(&mut self.holders[owner as usize], Holds::new());
        self.holders.push_reserved(claims);
        self.rollbacks.push_reserved(Rollback { id, by });
        self.room -= 1;
    }

    /// Whether the transaction's rollback is postponed.
    pub fn is_postponed(&self, id: Lrsn) -> bool
        ensures { result ≡ is_postponed self.now id }
    {
        place_of(self.rollbacks.as_slice(), id).is_some()
    }

    /// The postponed rollback now waits for this member.
    pub fn wait_for(&mut self, id: Lrsn, by: MemberId)
        requires { is_postponed self.old id ≡ true }
        ensures { self.new ≡ record self.old { rollbacks = waiting_at self.old.rollbacks (place_in self.old.rollbacks 0 id) id by } }
    {
        if let Some(at) = place_of(self.rollbacks.as_slice(), id) {
            self.rollbacks[at] = Rollback { id, by };
        }
    }

    /// Forgets a rollback that has no claims left.
    fn end(&mut self, at: usize)
        requires there { at < length self.old.rollbacks }
        requires done { claims_of self.old (slots self.old + at) ≡ [] }
        ensures { self.new ≡ ended self.old at }
    {
        let place = self.slots() + at;
        self.holders.remove(place).end();
        self.rollbacks.remove(at);
        self.room += 1;
    }

    /// `release` for a postponed rollback, which is over where no name is left to give up.
    pub fn release_postponed(&mut self, id: Lrsn) -> Option<(Name, Interest)>
        ensures told { result ≡ postponed_told self.old (place_in self.old.rollbacks 0 id) }
        ensures left { self.new ≡ after_postponed_release self.old (place_in self.old.rollbacks 0 id) }
    {
        let at = place_of(self.rollbacks.as_slice(), id)?;
        let place = self.slots() + at;
        let told = self.release_at(place);
        if told.is_none() {
            self.end(at);
        }
        told
    }

    /// Forgets a postponed rollback, and gives up the claims that it has left.
    pub fn end_postponed(&mut self, id: Lrsn)
        ensures { self.new ≡ dropped self.old (place_in self.old.rollbacks 0 id) }
    {
        if let Some(at) = place_of(self.rollbacks.as_slice(), id) {
            self.end_at(at);
        }
    }

    #[tactic(auto, using(crate::proofs::Resets::nothing_at, crate::proofs::Resets::emptied_dropped, crate::proofs::Resets::fewer_dropped))]
    fn end_at(&mut self, at: usize)
        requires { at < length self.old.rollbacks }
        ensures left { self.new ≡ dropped self.old (Some at) }
        ensures same { emptied self.new ≡ emptied self.old }
        ensures fewer { length self.new.rollbacks + 1 ≡ length self.old.rollbacks }
    {
        let _rollbacks = self.rollbacks.len();
        let place = self.slots() + at;
        self.drop_at(place);
        self.end(at);
    }

    /// The member that the postponed rollback of the transaction waits for.
    pub fn waited_for(&self, id: Lrsn) -> Option<MemberId>
        ensures { result ≡ postponed_for self.now (place_in self.now.rollbacks 0 id) }
    {
        let at = place_of(self.rollbacks.as_slice(), id)?;
        Some(self.rollbacks[at].by)
    }

    /// What `release_postponed` would answer now.
    pub fn releasing_postponed(&self, id: Lrsn) -> Option<(Name, Interest)>
        ensures { result ≡ postponed_told self.now (place_in self.now.rollbacks 0 id) }
    {
        let at = place_of(self.rollbacks.as_slice(), id)?;
        self.releasing_at(self.slots() + at)
    }
}

impl LockManager {
    /// Forgets all claims and rollbacks. Their room stays.
    pub fn reset(&mut self)
        ensures { self.new ≡ emptied self.old }
    {
        self.end_rollbacks();
        self.drop_agents();
    }

    fn end_rollbacks(&mut self)
        ensures same { emptied self.new ≡ emptied self.old }
        ensures none { self.new.rollbacks ≡ [] }
    {
        let mut left = self.rollbacks.len();
        while left > 0 {
            left -= 1;
            self.end_at(left);
        }
    }

    #[tactic(auto, using(crate::proofs::Resets::none_more, crate::proofs::Resets::emptied_all))]
    fn drop_agents(&mut self)
        requires { self.old.rollbacks ≡ [] }
        ensures { self.new ≡ emptied self.old }
    {
        for owner in 0..self.slots() {
            self.drop_at(owner);
        }
    }

    /// The claims of an agent are on names of which no two are the same.
    pub fn keeps_claims_apart(&self, owner: u8)
        requires { owner ≤ self.now.agents }
        ensures { AreDistinct (claims_of self.now owner) }
    {
        let _slots = self.slots();
        self.holders[owner as usize].are_apart();
    }
}
