//! The records of locks, each found by its name.

ghost use Rattle.std.specs.Prelude.{◌≡◌, ◌≤◌, ◌<◌, ◌||◌, ◌&&◌, ◌==◌, ℕ, not, true, false, IfOk, IfSome, Some, IsTrue, slice_get, map, if◌then◌else◌};
ghost use Rattle.lock_names.specs.Modes.{is_recorded};
ghost use Rattle.lock_structure.specs.Buckets.{IsUnique};
ghost use Rattle.lock_structure.specs.Locks.{IsLowest, is_kept_out};
ghost use Rattle.lock_structure.specs.Records.{record_in, how_many, retained_of, room_for, size_of, names_of, without_name, is_retained, retained_by, Alters, Retains, after_grant, after_release, after_purge, no_records};

use crate::buckets::{Buckets, area_of};
use crate::chain::Record;
use crate::cursor::{Cursor, kept, start_for};
use ds_base::{MemberId, NoMemory};
use lock_names::{Mode, Name};
use std::alloc::Global;
use std::marker::Model;

/// The records of locks, with room for so many.
#[derive(Drop)]
pub struct Records {
    buckets: Buckets,
    cursor: Option<Cursor>,
}

impl Model for Records {
    ghost use Rattle.lock_structure.specs.Records.{Book};
    ghost use Rattle.lock_structure.specs.Buckets.{IsHashed, IsPlaced, flat};

    ghost Value = { Book };

    ghost view = { λ a. record { held = flat a.buckets.chains; records = a.buckets.records; pages = a.buckets.pages } };

    ghost invariant = { λ a. IsHashed a.buckets.chains × IsPlaced a.cursor a.buckets.chains };
}

/// About one bucket for each record for which there is room, up to 65,535. The number is odd, so that names at distances of
/// a power of two spread over all buckets.
fn bucket_count(records: u32, pages: u32) -> u32
    ensures some { 1 ≤ result }
{
    let room = u64::from(records) + 32 * u64::from(pages);
    let half = (room / 2).min(32_767) as u32;
    2 * half + 1
}

impl Records {
    /// No records, with room for so many of table spaces and rows, and for so many of each member's pages and page sets.
    pub fn new(alloc: Global, records: u32, pages: u32) -> Result<Records, NoMemory>
        ensures { IfOk result (λ made. made ≡ no_records records pages) }
    {
        let buckets = Buckets::new(alloc, bucket_count(records, pages), records, pages)?;
        Ok(Records {
            buckets,
            cursor: None,
        })
    }

    /// Takes out all records.
    pub fn reset(&mut self)
        ensures { self.new ≡ no_records self.old.records self.old.pages }
    {
        self.cursor = None;
        self.buckets.clear();
    }

    /// The member's retained record with so many of its retained records before it.
    #[tactic(auto, using(crate::proofs::Hashed::flat_all_retained, crate::proofs::Order::retained_found))]
    pub fn retained(&mut self, member: MemberId, at: u32) -> Option<(Name, Mode)>
        ensures nth { result ≡ slice_get (retained_of member self.old.held) at }
        ensures found { IfSome result (λ x. record_in self.old.held member x.0 ≡ Some (record { mode = x.1; retained = true })) }
        ensures same { self.new ≡ self.old }
    {
        let start = start_for(self.cursor, member, at);
        let (found, cursor) = self.buckets.retained(start, at);
        self.cursor = Some(cursor);
        found
    }

    /// The member's record of the name.
    #[tactic(auto, using(crate::proofs::Hashed::hashed_find))]
    pub fn find(&self, member: MemberId, name: &Name) -> Option<Record>
        ensures { result ≡ record_in self.now.held member name.now }
    {
        self.buckets
            .find(self.buckets.bucket_of(name), member, name)
    }

    /// No member has two records of a name, and no area more records than room. It does nothing: it is called where these
    /// facts are needed.
    #[tactic(auto, using(crate::proofs::Order::hashed_unique, crate::proofs::Hashed::flat_count))]
    pub fn keeps_apart(&self)
        ensures apart { IsUnique self.now.held }
        ensures room { (area : ℕ) → area < 33 → how_many area self.now.held ≤ size_of self.now area }
    {
        self.buckets.keeps_room();
    }

    /// The lowest other member whose retained record of the name is in the way of the mode.
    pub fn keeper(&self, member: MemberId, name: &Name, mode: Mode) -> Option<MemberId>
        ensures { IsLowest (λ k. not (k == member) && is_kept_out (record_in self.now.held k name.now) mode) result }
    {
        self.buckets
            .keeper(self.buckets.bucket_of(name), member, name, mode)
    }

    /// Whether no room is left for another record of a table space or row.
    #[tactic(auto, using(crate::proofs::Hashed::flat_count))]
    pub fn is_full(&self) -> bool
        ensures full { result ≡ (how_many 0 self.now.held == self.now.records) }
        ensures bound { how_many 0 self.now.held ≤ self.now.records }
    {
        self.buckets.is_full()
    }

    /// Whether the member's record of the name stands, or there is room for it.
    #[tactic(auto, using(crate::proofs::Hashed::flat_count))]
    pub fn has_room(&self, member: MemberId, name: &Name) -> bool
        ensures { result ≡ room_for self.now member name.now }
    {
        self.find(member, name).is_some() || self.buckets.has_free(area_of(member, name))
    }

    pub fn limit(&self) -> u32
        ensures { result ≡ self.now.records }
    {
        self.buckets.limit()
    }

    /// Records a lock that was granted.
    pub fn enter(&mut self, member: MemberId, name: &Name, mode: Mode)
        requires { IsTrue (not (is_recorded mode) || room_for self.old member name.now) }
        ensures records { Alters member name.now (after_grant mode) self.old self.new }
        ensures order { (k : ℕ) → names_of (retained_of k self.new.held) ≡ names_of (retained_of k self.old.held) }
    {
        let bucket = self.buckets.bucket_of(name);
        self.buckets.enter(bucket, member, name, mode);
    }

    /// Frees the member's record of the name, unless it is retained.
    pub fn release(&mut self, member: MemberId, name: &Name)
        ensures records { Alters member name.now after_release self.old self.new }
        ensures order { (k : ℕ) → retained_of k self.new.held ≡ retained_of k self.old.held }
    {
        let bucket = self.buckets.bucket_of(name);
        self.buckets.release(bucket, member, name);
    }

    /// Frees the member's retained record of the name.
    pub fn purge(&mut self, member: MemberId, name: &Name)
        ensures records { Alters member name.now after_purge self.old self.new }
        ensures order { (k : ℕ) → retained_of k self.new.held ≡ (if (k == member) && is_retained (record_in self.old.held member name.now) then without_name name.now (retained_of k self.old.held) else retained_of k self.old.held) }
    {
        let bucket = self.buckets.bucket_of(name);
        self.cursor = kept(self.cursor, bucket);
        self.buckets.purge(bucket, member, name);
    }

    /// Makes all records of the member retained.
    pub fn retain(&mut self, member: MemberId)
        ensures records { Retains member self.old self.new }
        ensures order { self.new.held ≡ map (retained_by member) self.old.held }
    {
        self.cursor = None;
        self.buckets.retain(member);
    }
}
