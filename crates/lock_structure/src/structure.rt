ghost use Rattle.std.specs.Prelude.{◌≡◌, ◌↔◌, ◌+◌, ◌<◌, ◌≤◌, ◌^◌, ◌==◌, ◌||◌, length, IsTrue, not, true, false, ℕ, Some, slice_index_or, slice_get, replicate, IfOk, IfSome, if◌then◌else◌};
ghost use Rattle.ds_base.specs.Ids.{IsMember};
ghost use Rattle.lock_names.specs.Modes.{is_recorded};
ghost use Rattle.lock_structure.specs.Entries.{interest_in, no_interest, blank};
ghost use Rattle.lock_structure.specs.Buckets.{IsUnique};
ghost use Rattle.lock_structure.specs.Records.{area_of, how_many, size_of};
ghost use Rattle.lock_structure.specs.Locks.{stands, is_clean, IsLowest, place_of, entry_for, has_room, record_of, retained_in, keeps_out, is_full, IsGranted, Obtains, Grants, IsReleased, IsPurged, HasFailed, empty_locks};

use crate::buckets::area_of;
use crate::entry::{Entry, is_in_the_way};
use crate::mask;
use crate::records::Records;
use crate::replies::{GrantReply, Obtained};
use ds_base::{MemberId, NoMemory};
use lock_names::{Interest, Mode, Name, class, entry_of, recorded};
use std::alloc::Global;
use std::marker::Model;

/// The lock table and the records of locks, as a lock structure of the coupling facility keeps them (Josten, Mohan, Narang
/// and Teng, IBM Systems Journal 36(2), 1997).
///
/// A record is found by its name, whatever the number of entries. Only the maker takes memory.
#[derive(Drop)]
pub struct LockStructure {
    entries: Vec<Entry>,
    records: Records,
}

impl Model for LockStructure {
    ghost use Rattle.lock_structure.specs.Locks.{Locks, HasEntries};

    ghost Value = { Locks };

    ghost view = { λ a. record { entries = a.entries.items; book = a.records } };

    ghost invariant = { λ a. HasEntries a.entries.items };
}

#[tactic(auto, using(crate::proofs::Clean::clean_step))]
fn is_clean(clean: &[(MemberId, u64)], member: MemberId, version: u64) -> bool
    ensures { result ≡ is_clean clean.now member version }
{
    for (who, at) in clean {
        if who.number() == member.number() && *at == version {
            return true;
        }
    }
    false
}

/// The lowest other member whose interest in the entry is in the way and that hasn't answered at its present version.
fn unsettled(
    entry: Entry,
    member: MemberId,
    mode: Mode,
    clean: &[(MemberId, u64)],
) -> Option<MemberId>
    ensures { IsLowest (stands entry member mode clean.now) result }
{
    for number in 1..33u64 {
        if let Some(other) = MemberId::new(number)
            && other.number() != member.number()
            && is_in_the_way(class(mode), entry.interest(other))
            && !is_clean(clean, other, entry.version)
        {
            return Some(other);
        }
    }
    None
}

impl LockStructure {
    /// A lock table with so many entries, and room for so many records of table spaces and rows, and for so many of each
    /// member's pages and page sets. Nothing else takes memory.
    pub fn new(
        alloc: Global,
        entries: u32,
        records: u32,
        pages: u32,
    ) -> Result<LockStructure, NoMemory>
        requires { 1 ≤ entries }
        ensures { IfOk result (λ made. made ≡ empty_locks entries records pages) }
    {
        let records = Records::new(alloc, records, pages)?;
        let entries = empty_entries(alloc, entries)?;
        Ok(LockStructure { entries, records })
    }

    /// The member's retained record, counted from 0: its name and its mode. None where it has no more than `at`.
    ///
    /// The order stands: a purge takes its record out of it, and no other call but a failure of this member or a reset
    /// moves a record. The structure keeps the place of the last answer, and looks for a later record from there on: all
    /// retained records of a member, asked for in their order, take one walk over the structure.
    pub fn retained(&mut self, member: MemberId, at: u32) -> Option<(Name, Mode)>
        ensures nth { result ≡ slice_get (retained_in self.old member) at }
        ensures found { IfSome result (λ x. record_of self.old member x.0 ≡ Some (record { mode = x.1; retained = true })) }
        ensures same { self.new ≡ self.old }
    {
        self.records.retained(member, at)
    }

    /// The place of the name's entry.
    fn place_of(&self, name: &Name) -> usize
        ensures place { result ≡ place_of self.now name.now }
        ensures range { result < length self.now.entries }
    {
        entry_of(name, self.entries.len() as u32) as usize
    }

    /// How often the name's entry was granted.
    pub fn version(&self, name: &Name) -> u64
        ensures { result ≡ (entry_for self.now name.now).version }
    {
        self.entries[self.place_of(name)].version
    }

    /// Whether the member may ask for a lock of the name: the version of its entry can rise, and a page or page set has its
    /// record or room for one.
    pub fn can_grant(&self, member: MemberId, name: &Name) -> bool
        ensures { IsTrue result ↔ (((entry_for self.now name.now).version + 1 < 2 ^ 64) × IsTrue ((area_of member name.now == 0) || has_room self.now member name.now)) }
    {
        self.version(name) < u64::MAX
            && (area_of(member, name) == 0 || self.records.has_room(member, name))
    }

    /// The lowest other member whose retained record of the name is in the way.
    fn keeper(&self, member: MemberId, name: &Name, mode: Mode) -> Option<MemberId>
        ensures { IsLowest (keeps_out self.now member name.now mode) result }
    {
        self.records.keeper(member, name, mode)
    }

    /// Whether the lock would be one record of a table space or row too many.
    fn is_full(&self, member: MemberId, name: &Name, mode: Mode) -> bool
        ensures full { result ≡ is_full self.now member name.now mode }
        ensures room { result ≡ false → IsTrue ((area_of member name.now == 0) || has_room self.now member name.now) → IsTrue (not (is_recorded mode) || has_room self.now member name.now) }
    {
        recorded(mode)
            && area_of(member, name) == 0
            && self.records.is_full()
            && self.records.find(member, name).is_none()
    }

    fn settle(&mut self, place: usize, member: MemberId, name: &Name, mode: Mode) -> u64
        requires place { place ≡ place_of self.old name.now }
        requires range { place < length self.old.entries }
        requires version { (entry_for self.old name.now).version + 1 < 2 ^ 64 }
        requires room { IsTrue (not (is_recorded mode) || has_room self.old member name.now) }
        ensures version { result ≡ (entry_for self.old name.now).version + 1 }
        ensures granted { IsGranted self.old member name.now mode self.new }
    {
        let entry = self.entries[place].granted(member, class(mode));
        self.entries[place] = entry;
        self.records.enter(member, name, mode);
        entry.version
    }

    /// No member has two records of a name, and no area more records than room: area 0 is that of table spaces and rows, and
    /// each other one that of the member of its number. It does nothing, and is called where these facts are needed.
    pub fn keeps_records_apart(&self)
        ensures apart { IsUnique self.now.book.held }
        ensures room { (area : ℕ) → area < 33 → how_many area self.now.book.held ≤ size_of self.now.book area }
    {
        self.records.keeps_apart();
    }

    /// Asks for a lock of the member, in this mode.
    ///
    /// Where it isn't granted, nothing changes.
    pub fn obtain(&mut self, member: MemberId, name: &Name, mode: Mode) -> Obtained
        requires version { (entry_for self.old name.now).version + 1 < 2 ^ 64 }
        requires room { IsTrue ((area_of member name.now == 0) || has_room self.old member name.now) }
        ensures { Obtains self.old member name.now mode result self.new }
    {
        if let Some(by) = self.keeper(member, name, mode) {
            return Obtained::Retained { by };
        }
        if self.is_full(member, name, mode) {
            return Obtained::RecordsFull {
                limit: self.records.limit(),
            };
        }
        let place = self.place_of(name);
        let entry = self.entries[place];
        if unsettled(entry, member, mode, &[]).is_some() {
            return Obtained::Contention {
                share: mask::without(entry.share, member),
                exclusive: mask::without(entry.exclusive, member),
                version: entry.version,
            };
        }
        Obtained::Granted {
            version: self.settle(place, member, name, mode),
        }
    }

    /// Asks for a lock about which other members have answered that they have nothing in its way, each with the entry's
    /// version at that time.
    ///
    /// Where it isn't granted, nothing changes.
    pub fn grant(
        &mut self,
        member: MemberId,
        name: &Name,
        mode: Mode,
        clean: &[(MemberId, u64)],
    ) -> GrantReply
        requires version { (entry_for self.old name.now).version + 1 < 2 ^ 64 }
        requires room { IsTrue ((area_of member name.now == 0) || has_room self.old member name.now) }
        ensures { Grants self.old member name.now mode clean.now result self.new }
    {
        if let Some(by) = self.keeper(member, name, mode) {
            return GrantReply::Retained { by };
        }
        if self.is_full(member, name, mode) {
            return GrantReply::RecordsFull {
                limit: self.records.limit(),
            };
        }
        let place = self.place_of(name);
        let entry = self.entries[place];
        if unsettled(entry, member, mode, clean).is_some() {
            return GrantReply::Moved {
                version: entry.version,
            };
        }
        GrantReply::Granted {
            version: self.settle(place, member, name, mode),
        }
    }

    /// Gives up a lock. The member's record of the name is freed, unless it is retained, and its interest in the entry
    /// becomes what its other locks there need.
    pub fn release(&mut self, member: MemberId, name: &Name, keeps: Interest)
        ensures { IsReleased self.old member name.now keeps self.new }
    {
        let place = self.place_of(name);
        self.entries[place] = self.entries[place].with_interest(member, keeps);
        self.records.release(member, name);
    }

    /// Frees the member's retained record of the name.
    pub fn purge_retained(&mut self, member: MemberId, name: &Name)
        ensures { IsPurged self.old member name.now self.new }
    {
        self.records.purge(member, name);
    }

    /// Marks what a failed member leaves: its records are retained, and it has no interest in any entry.
    pub fn fail_member(&mut self, member: MemberId)
        ensures { HasFailed self.old member self.new }
    {
        leave_all(&mut self.entries, member);
        self.records.retain(member);
    }

    /// Makes the structure as it was made: all versions are 0, and there is no interest and no record.
    pub fn reset(&mut self)
        ensures { self.new ≡ empty_locks (length self.old.entries) self.old.book.records self.old.book.pages }
    {
        clear_all(&mut self.entries);
        self.records.reset();
    }
}

fn empty_entries(alloc: Global, count: u32) -> Result<Vec<Entry>, NoMemory>
    ensures { IfOk result (λ entries. entries.items ≡ replicate count blank) }
{
    let mut entries = Vec::with_capacity(alloc, count as usize)?;
    for _made in 0..count {
        entries.push_reserved(Entry::EMPTY);
    }
    Ok(entries)
}

/// Takes the member's interest out of all entries.
fn leave_all(entries: &mut Vec<Entry>, member: MemberId)
    ensures same { length entries.new.items ≡ length entries.old.items }
    ensures versions { (e : ℕ) → (slice_index_or entries.new.items e blank).version ≡ (slice_index_or entries.old.items e blank).version }
    ensures interest { (k e : ℕ) → IsMember k → e < length entries.old.items → interest_in (slice_index_or entries.new.items e blank) k ≡ (if k == member then no_interest else interest_in (slice_index_or entries.old.items e blank) k) }
{
    for entry in entries.iter_mut() {
        *entry = entry.with_interest(
            member,
            Interest {
                share: false,
                exclusive: false,
            },
        );
    }
}

/// Makes all entries as they were made.
fn clear_all(entries: &mut Vec<Entry>)
    ensures { entries.new.items ≡ replicate (length entries.old.items) blank }
{
    for entry in entries.iter_mut() {
        *entry = Entry::EMPTY;
    }
}
