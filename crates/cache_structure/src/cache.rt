ghost use Rattle.std.specs.Prelude.{◌≡◌, ℕ, ◌<◌, true, length, Some, None, IfOk, IfSome, IsNone};
ghost use Rattle.std.specs.Option.{option_map, option_map_or};
ghost use Rattle.cache_structure.specs.Directory.{
  empty_directory,
  with_entry,
  made,
  reclaimable,
  reclaimed,
  with_newest,
  bytes_of,
  registers,
};
ghost use Rattle.cache_structure.specs.Frames.{page_dropped, others_dropped};
ghost use Rattle.cache_structure.specs.Entries.{fresh, newest, without};
ghost use Rattle.cache_structure.specs.Slots.{find_slot, holds_at, bytes_at, slot_at, entries_in, entry_at, page_in};
ghost use Rattle.cache_structure.specs.State.{directory_of};

use crate::face::{CacheFace, CastReply, DoneReply, ReadReply, WriteReply};
use crate::registrations::Registrations;
use crate::table::EntryTable;
use ds_base::{MemberId, NoMemory, PageId};
use page_format::Page;
use std::alloc::Global;
use std::marker::Model;

/// A cache structure in memory.
///
/// A look-up, the order of use, dropping a page's registrations and `changed_count` cost the same for any number of
/// entries and frames. `next_changed`, and a write or a castout that changes which pages are changed, take at most 49
/// steps down a tree. Where no place is free, a new entry walks over the changed entries at the old end. `fail_member`
/// and `lose` walk over all entries, `fail_member` over the member's frames, and `lose` over all frames.
#[derive(Drop)]
pub struct Cache {
    table: EntryTable,
    registrations: Registrations,
    lost: bool,
}

impl Model for Cache {
    ghost use Rattle.std.specs.Prelude.{◌≡◌, length};
    ghost use Rattle.cache_structure.specs.State.{CacheState};

    ghost Value = { CacheState };

    ghost view = { λ c. record { table = c.table; bound = c.registrations; lost = c.lost } };

    ghost invariant = { λ c. length c.registrations.validities ≡ length c.table.slots };
}

impl Cache {
    /// A cache with room for so many entries, each with the bytes of a page, for members with so many frames.
    pub fn new(alloc: Global, entries: u32, frames: u16) -> Result<Cache, NoMemory>
        ensures { IfOk result (λ cache. directory_of cache ≡ empty_directory entries frames) }
    {
        Ok(Cache {
            table: EntryTable::new(alloc, entries)?,
            registrations: Registrations::new(alloc, frames, entries)?,
            lost: false,
        })
    }

    // Finds or makes the entry of a page, which is then the newest. Answers its slot.
    fn enter(&mut self, id: PageId) -> Option<u32>
        ensures full { IsNone result → (self.new ≡ self.old) × (with_entry (directory_of self.old) id ≡ None) }
        ensures entered { IfSome result (λ at. with_entry (directory_of self.old) id ≡ Some (directory_of self.new)) }
        ensures lost { self.new.lost ≡ self.old.lost }
        ensures frames { self.new.bound.frames ≡ self.old.bound.frames }
        ensures there { IfSome result (λ at. (at < length self.new.table.slots) × (holds_at self.new.table.slots at id ≡ true)) }
        ensures page { IfSome result (λ at. page_in self.new.table.slots at ≡ Some id) }
        ensures bytes { IfSome result (λ at. bytes_at self.new.table at ≡ bytes_of (directory_of self.old) id) }
    {
        self.table.pages_are_apart();
        match self.table.find(id) {
            Some(at) => {
                self.table.touch(at);
                Some(at)
            }
            None => self.make(id),
        }
    }

    // Makes an entry of a page that has none, in a free slot or by reclaiming the oldest idle entry.
    fn make(&mut self, id: PageId) -> Option<u32>
        requires { find_slot self.old.table.slots id ≡ None }
        ensures full { IsNone result → (self.new ≡ self.old) × (made (directory_of self.old) id ≡ None) }
        ensures made { IfSome result (λ at. made (directory_of self.old) id ≡ Some (directory_of self.new)) }
        ensures lost { self.new.lost ≡ self.old.lost }
        ensures frames { self.new.bound.frames ≡ self.old.bound.frames }
        ensures there { IfSome result (λ at. (at < length self.new.table.slots) × (holds_at self.new.table.slots at id ≡ true)) }
        ensures page { IfSome result (λ at. page_in self.new.table.slots at ≡ Some id) }
        ensures bytes { IfSome result (λ at. bytes_at self.new.table at ≡ None) }
    {
        match self.table.next_free() {
            Some(at) => {
                self.place(at, id);
                Some(at)
            }
            None => self.reclaim(id),
        }
    }

    // Makes an entry of a page that has none in the place of the oldest idle entry.
    fn reclaim(&mut self, id: PageId) -> Option<u32>
        requires { find_slot self.old.table.slots id ≡ None }
        ensures full { IsNone result → (self.new ≡ self.old) × (reclaimable (directory_of self.old) ≡ None) }
        ensures made { IfSome result (λ at. option_map (λ e. with_newest (reclaimed (directory_of self.old) e) (fresh id)) (reclaimable (directory_of self.old)) ≡ Some (directory_of self.new)) }
        ensures lost { self.new.lost ≡ self.old.lost }
        ensures frames { self.new.bound.frames ≡ self.old.bound.frames }
        ensures there { IfSome result (λ at. (at < length self.new.table.slots) × (holds_at self.new.table.slots at id ≡ true)) }
        ensures page { IfSome result (λ at. page_in self.new.table.slots at ≡ Some id) }
        ensures bytes { IfSome result (λ at. bytes_at self.new.table at ≡ None) }
    {
        let at = self.table.oldest_idle()?;
        self.place(at, id);
        Some(at)
    }

    // Makes an entry of a page in a slot. What stood there is gone, and so are its registrations.
    fn place(&mut self, at: u32, id: PageId)
        requires there { at < length self.old.table.slots }
        requires next { (slot_at self.old.table.slots at).page ≡ None → at ≡ length (entries_in self.old.table) }
        requires alone { find_slot self.old.table.slots id ≡ None }
        ensures size { length self.new.table.slots ≡ length self.old.table.slots }
        ensures lost { self.new.lost ≡ self.old.lost }
        ensures frames { self.new.bound.frames ≡ self.old.bound.frames }
        ensures here { holds_at self.new.table.slots at id ≡ true }
        ensures page { page_in self.new.table.slots at ≡ Some id }
        ensures bytes { bytes_at self.new.table at ≡ None }
        ensures entries { entries_in self.new.table ≡ newest (fresh id) (option_map_or (λ e. without e.page (entries_in self.old.table)) (entry_at self.old.table at) (entries_in self.old.table)) }
        ensures registered { (directory_of self.new).registered ≡ option_map_or (page_dropped (directory_of self.old).registered) (page_in self.old.table.slots at) (directory_of self.old).registered }
    {
        self.table.pages_are_apart();
        self.registrations.drop_slot(at);
        self.table.make(at, id);
    }

    // Registers a frame with the page whose entry stands in a slot.
    fn register(&mut self, member: MemberId, index: u16, at: u32, id: PageId)
        requires index { index < self.old.bound.frames }
        requires page { page_in self.old.table.slots at ≡ Some id }
        ensures table { self.new.table ≡ self.old.table }
        ensures directory { directory_of self.new ≡ registers (directory_of self.old) member id index }
    {
        self.registrations.register(member, index, at);
    }

    // Drops the registrations of all other members' frames with the page whose entry stands in a slot.
    fn invalidate(&mut self, member: MemberId, at: u32, id: PageId)
        requires slot { at < length self.old.table.slots }
        requires page { page_in self.old.table.slots at ≡ Some id }
        ensures table { self.new.table ≡ self.old.table }
        ensures lost { self.new.lost ≡ self.old.lost }
        ensures frames { self.new.bound.frames ≡ self.old.bound.frames }
        ensures registered { (directory_of self.new).registered ≡ others_dropped (directory_of self.old).registered member id }
    {
        self.table.pages_are_apart();
        self.registrations.drop_slot_of_others(member, at);
    }
}

impl CacheFace for Cache {
    ghost directory = { directory_of };

    fn read_register(
        &mut self,
        member: MemberId,
        id: PageId,
        index: u16,
        into: &mut Page,
    ) -> ReadReply {
        if self.lost {
            return ReadReply::Lost;
        }
        let Some(at) = self.enter(id) else {
            return ReadReply::CacheFull;
        };
        self.register(member, index, at, id);
        if self.table.read(at, into) {
            ReadReply::Found
        } else {
            ReadReply::NoData
        }
    }

    fn write_register(
        &mut self,
        member: MemberId,
        id: PageId,
        index: u16,
        from: &Page,
    ) -> WriteReply {
        if self.lost {
            return WriteReply::Lost;
        }
        let Some(at) = self.enter(id) else {
            return WriteReply::CacheFull;
        };
        self.table.write(at, from);
        self.invalidate(member, at, id);
        self.register(member, index, at, id);
        WriteReply::Written
    }

    fn unregister(&mut self, member: MemberId, index: u16) {
        self.registrations.unregister(member, index);
    }

    fn test(&self, member: MemberId, index: u16) -> bool {
        match self.registrations.slot_of(member, index) {
            Some(at) => self.table.page_at(at).is_some(),
            None => false,
        }
    }

    fn castout_read(&mut self, member: MemberId, id: PageId, into: &mut Page) -> CastReply {
        if self.lost {
            return CastReply::Lost;
        }
        let Some(at) = self.table.find(id) else {
            return CastReply::NotChanged;
        };
        let reply = self.table.slot(at).cast_reply(member);
        if let CastReply::Taken = reply {
            self.table.read(at, into);
            self.table.lock(at, member);
        }
        reply
    }

    fn castout_done(&mut self, member: MemberId, id: PageId) -> DoneReply {
        if self.lost {
            return DoneReply::Lost;
        }
        let Some(at) = self.table.find(id) else {
            return DoneReply::NotHeld;
        };
        if !self.table.slot(at).is_locked_for(member) {
            return DoneReply::NotHeld;
        }
        self.table.unlock(at);
        DoneReply::Done
    }

    fn next_changed(&self, after: Option<PageId>) -> Option<PageId> {
        self.table.next_changed(after)
    }

    fn castout_holder(&self, id: PageId) -> Option<MemberId> {
        let at = self.table.find(id)?;
        self.table.slot(at).castout
    }

    fn changed_count(&self) -> u32 {
        self.table.changed_count()
    }

    fn fail_member(&mut self, member: MemberId) {
        self.table.free_locks(member);
        self.registrations.drop_member(member);
    }

    fn lose(&mut self) {
        self.table.clear();
        self.registrations.clear();
        self.lost = true;
    }

    fn rebuilt(&mut self) {
        self.lost = false;
    }

    fn is_lost(&self) -> bool {
        self.lost
    }

    fn frames(&self) -> u16 {
        self.registrations.frames()
    }
}
