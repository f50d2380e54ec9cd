ghost use Rattle.std.specs.Prelude.{◌≡◌, ◌<◌, ◌≤◌, ◌^◌, ◌||◌, ◌==◌, not, length, map, replicate, slice_set, slice_index_or, is_some, nat_lt, Some, None, IfOk, IfSome, IsTrue, ℕ, slice_get, [], if◌then◌else◌};
ghost use Rattle.ds_base.specs.Ids.{IsMember};
ghost use Rattle.lock_names.specs.Modes.{is_recorded};
ghost use Rattle.lock_names.specs.Entries.{entry_number};
ghost use Rattle.lock_structure.specs.Records.{area_of, record_in, joined, is_retained, retained_by};
ghost use Rattle.lock_structure.specs.Buckets.{recorded_in, released_in, purged_in, lowest_in, IsPlaced, count_in, room_of, without, all_retained, no_room, all_free};

use crate::chain::{Chain, Held, Record};
use crate::cursor::Cursor;
use ds_base::{MemberId, NoMemory};
use lock_names::{Mode, Name, entry_of, join, recorded};
use record_area::Area;
use std::alloc::Global;
use std::marker::Model;

/// The records by the entries on which their names fall, within their areas.
#[derive(Drop)]
pub struct Buckets {
    chains: Vec<Chain>,
    areas: Vec<Area<Chain>>,
    records: u32,
    pages: u32,
}

impl Model for Buckets {
    ghost use Rattle.lock_structure.specs.Buckets.{Chained, HasRoom};

    ghost Value = { Chained };

    ghost view = { λ a. record { chains = a.chains.items; records = a.records; pages = a.pages } };

    ghost invariant = { λ a. HasRoom a.chains.items a.areas.items a.records a.pages };
}

/// The area of a member's record of the name: 0 for table spaces and rows, else the member's own.
#[tactic(auto, unfolding(crate::specs::Records::area_of))]
pub fn area_of(member: MemberId, name: &Name) -> u32
    ensures area { result ≡ area_of member name.now }
    ensures range { result < 33 }
{
    match name {
        Name::Space(_) | Name::Row(_, _) => 0,
        Name::Page(_) | Name::Set(_) => member.number() as u32,
    }
}

/// The record after a grant in a mode that is recorded.
fn joined(found: Option<Record>, mode: Mode) -> Record
    ensures { result ≡ joined found mode }
{
    match found {
        Some(found) => Record {
            mode: join(found.mode, mode),
            retained: found.retained,
        },
        None => Record {
            mode,
            retained: false,
        },
    }
}

fn is_retained(found: Option<Record>) -> bool
    ensures { result ≡ is_retained found }
{
    match found {
        Some(found) => found.retained,
        None => false,
    }
}

#[tactic(auto, using(std::proofs::lemmas::List::Edits::map_over_more))]
fn retain_all(chains: &mut Vec<Chain>, member: MemberId)
    ensures { chains.new.items ≡ map (map (retained_by member)) chains.old.items }
{
    for chain in chains.iter_mut() {
        chain.retain(member);
    }
}

impl Buckets {
    /// The bucket on which the name falls.
    pub fn bucket_of(&self, name: &Name) -> usize
        requires some { 1 ≤ length self.now.chains }
        requires bound { length self.now.chains < 2 ^ 32 }
        ensures place { result ≡ entry_number name.now (length self.now.chains) }
        ensures range { result < length self.now.chains }
    {
        entry_of(name, self.chains.len() as u32) as usize
    }

    pub fn find(&self, at: usize, member: MemberId, name: &Name) -> Option<Record>
        requires { at < length self.now.chains }
        ensures { result ≡ record_in (slice_index_or self.now.chains at []) member name.now }
    {
        self.chains[at].find(member, name)
    }

    /// No area has more records than room. It does nothing: it is called where the fact is needed.
    pub fn keeps_room(&self)
        ensures { (area : ℕ) → area < 33 → count_in area self.now.chains ≤ room_of self.now area }
    {
        let _limit = self.records;
    }

    /// The lowest other member with a record in the bucket that is retained, and in the way of the name and mode.
    pub fn keeper(&self, at: usize, member: MemberId, name: &Name, mode: Mode) -> Option<MemberId>
        requires { at < length self.now.chains }
        ensures lowest { result ≡ lowest_in member name.now mode (slice_index_or self.now.chains at []) None }
        ensures range { IfSome result IsMember }
    {
        self.chains[at].keeper(member, name, mode)
    }

    /// Whether no room is left for another record of a table space or row.
    pub fn is_full(&self) -> bool
        ensures full { result ≡ (count_in 0 self.now.chains == self.now.records) }
        ensures bound { count_in 0 self.now.chains ≤ self.now.records }
    {
        self.areas[0].is_full()
    }

    /// Whether the area has room for another record.
    pub fn has_free(&self, area: u32) -> bool
        requires { area < 33 }
        ensures { result ≡ nat_lt (count_in area self.now.chains) (room_of self.now area) }
    {
        !self.areas[area as usize].is_full()
    }

    pub fn limit(&self) -> u32
        ensures { result ≡ self.now.records }
    {
        self.records
    }

    /// Records a lock that was granted.
    pub fn enter(&mut self, at: usize, member: MemberId, name: &Name, mode: Mode)
        requires at { at < length self.old.chains }
        requires room { IsTrue (not (is_recorded mode) || is_some (record_in (slice_index_or self.old.chains at []) member name.now) || nat_lt (count_in (area_of member name.now) self.old.chains) (room_of self.old (area_of member name.now))) }
        ensures { self.new ≡ record self.old { chains = slice_set self.old.chains at (recorded_in (slice_index_or self.old.chains at []) member name.now mode) } }
    {
        if !recorded(mode) {
            return;
        }
        let found = self.find(at, member, name);
        let lock = joined(found, mode);
        if found.is_some() {
            self.chains[at].put(member, name, lock);
        } else {
            let cell = self.areas[area_of(member, name) as usize].take();
            let name = *name;
            self.chains[at].insert(cell, Held { member, name, lock });
        }
    }

    fn remove(&mut self, at: usize, member: MemberId, name: &Name)
        requires { at < length self.old.chains }
        ensures { self.new ≡ record self.old { chains = slice_set self.old.chains at (without (slice_index_or self.old.chains at []) member name.now) } }
    {
        if let Some(cell) = self.chains[at].remove(member, name) {
            self.areas[area_of(member, name) as usize].give_back(cell);
        }
    }

    /// Frees the member's record of the name, unless it is retained.
    pub fn release(&mut self, at: usize, member: MemberId, name: &Name)
        requires { at < length self.old.chains }
        ensures { self.new ≡ record self.old { chains = slice_set self.old.chains at (released_in (slice_index_or self.old.chains at []) member name.now) } }
    {
        if !is_retained(self.find(at, member, name)) {
            self.remove(at, member, name);
        }
    }

    /// Frees the member's retained record of the name.
    pub fn purge(&mut self, at: usize, member: MemberId, name: &Name)
        requires { at < length self.old.chains }
        ensures { self.new ≡ record self.old { chains = slice_set self.old.chains at (purged_in (slice_index_or self.old.chains at []) member name.now) } }
    {
        if is_retained(self.find(at, member, name)) {
            self.remove(at, member, name);
        }
    }

    /// Makes all records of the member retained.
    pub fn retain(&mut self, member: MemberId)
        ensures { self.new ≡ record self.old { chains = map (map (retained_by member)) self.old.chains } }
    {
        retain_all(&mut self.chains, member);
    }

    /// Takes all records out of a bucket.
    fn empty(&mut self, at: usize)
        requires { at < length self.old.chains }
        ensures { self.new ≡ record self.old { chains = slice_set self.old.chains at [] } }
    {
        if let Some(held) = self.chains[at].first() {
            self.remove(at, held.member, &held.name);
            self.empty(at);
        }
    }

    /// Takes all records out.
    pub fn clear(&mut self)
        ensures { self.new ≡ record self.old { chains = replicate (length self.old.chains) [] } }
    {
        for at in 0..self.chains.len() {
            self.empty(at);
        }
    }

    /// The retained record of this number of the place's member, and the place of its bucket.
    pub fn retained(&self, start: Cursor, at: u32) -> (Option<(Name, Mode)>, Cursor)
        requires placed { IsPlaced (Some start) self.now.chains }
        requires before { start.before ≤ at }
        ensures found { result.0 ≡ slice_get (all_retained start.member self.now.chains) at }
        ensures placed { IsPlaced (Some result.1) self.now.chains }
    {
        nth_retained(&self.chains, start, at)
    }
}

fn nth_retained(chains: &[Chain], start: Cursor, at: u32) -> (Option<(Name, Mode)>, Cursor)
    requires placed { IsPlaced (Some start) chains.now }
    requires before { start.before ≤ at }
    ensures found { result.0 ≡ slice_get (all_retained start.member chains.now) at }
    ensures placed { IsPlaced (Some result.1) chains.now }
{
    let member = start.member;
    let mut left = at - start.before;
    for bucket in start.bucket..chains.len() {
        match chains[bucket].retained(member, left) {
            Ok(found) => {
                let before = at - left;
                let place = Cursor {
                    member,
                    bucket,
                    before,
                };
                return (Some(found), place);
            }
            Err(more) => left = more,
        }
    }
    let place = Cursor {
        member,
        bucket: chains.len(),
        before: at - left,
    };
    (None, place)
}

/// As many empty chains.
fn empty_chains(alloc: Global, count: u32) -> Result<Vec<Chain>, NoMemory>
    ensures { IfOk result (λ chains. chains.items ≡ replicate count []) }
{
    let mut chains = Vec::with_capacity(alloc, count as usize)?;
    for _made in 0..count {
        chains.push_reserved(Chain::new());
    }
    Ok(chains)
}

/// The area of table spaces and rows, and those of the members.
fn free_areas(alloc: Global, records: u32, pages: u32) -> Result<Vec<Area<Chain>>, NoMemory>
    ensures count { IfOk result (λ areas. length areas.items ≡ 33) }
    ensures free { IfOk result (λ areas. (k : ℕ) → k < 33 → slice_index_or areas.items k no_room ≡ all_free (if k == 0 then records else pages)) }
{
    let mut areas = Vec::with_capacity(alloc, 33)?;
    for area in 0..33u32 {
        let size = if area == 0 { records } else { pages };
        areas.push_reserved(Area::new(alloc, size)?);
    }
    Ok(areas)
}

impl Buckets {
    /// No records, in so many buckets, with room for so many of table spaces and rows, and for so many of each member's
    /// pages and page sets.
    pub fn new(alloc: Global, buckets: u32, records: u32, pages: u32) -> Result<Buckets, NoMemory>
        ensures { IfOk result (λ made. made ≡ record { chains = replicate buckets []; records = records; pages = pages }) }
    {
        let chains = empty_chains(alloc, buckets)?;
        let areas = free_areas(alloc, records, pages)?;
        Ok(Buckets {
            chains,
            areas,
            records,
            pages,
        })
    }
}
