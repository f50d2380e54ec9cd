ghost use Rattle.std.specs.Prelude.{◌≡◌, ◌==◌, ℕ, ◌<◌, ◌≤◌, ◌+◌, ◌||◌, ◌&&◌, not, false, ◌++◌, ◌∷◌, [], true, List, length, map, replicate, slice_get, slice_set, None, IfOk, IfSome, IsNone, Some, find, count_by, is_some, unwrap_or, nat_lt, cond};
ghost use Rattle.std.specs.Option.{option_map_or, option_map};
ghost use Rattle.page_format.specs.Fields.{page_size};
ghost use Rattle.cache_structure.specs.Entries.{
  Entry,
  fresh,
  is_idle,
  entry_of,
  newest,
  without,
  at_entry,
  written_with,
  locked_by,
  cast_out,
  freed_of,
};
ghost use Rattle.cache_structure.specs.Slots.{free_slot, slot_at, page_in, find_slot, holds_at, entry_at, entry_in, entries_in, bytes_at};
ghost use Rattle.cache_structure.specs.Frames.{is_page};
ghost use Rattle.cache_structure.specs.Order.{IsNextAmong, changed_in};
ghost use Rattle.cache_structure.specs.Listed.{is_page_of};
ghost use Rattle.page_tree.specs.Pages.{has};

use crate::slot::{Slot, free_all, free_slots};
use ds_base::{MemberId, NoMemory, PageId};
use page_format::Page;
use page_index::{PageIndex, UseOrder};
use page_tree::PageSet;
use std::alloc::Global;
use std::marker::Model;

/// The entries of the directory with their storage, in the order of their use.
///
/// An entry is named by the number of its slot.
#[derive(Drop)]
pub struct EntryTable {
    slots: Vec<Slot>,
    pages: Vec<Page>,
    order: UseOrder,
    index: PageIndex,
    used: u32,
    changed: PageSet,
}

impl Model for EntryTable {
    ghost use Rattle.cache_structure.specs.Slots.{Table};
    ghost use Rattle.cache_structure.specs.Kept.{IsKept};
    ghost use Rattle.cache_structure.specs.Listed.{IsListed};

    ghost Value = { Table };

    ghost view = { λ t. record { slots = t.slots.items; pages = t.pages.items; order = t.order } };

    ghost invariant = { λ t. IsKept (record { slots = t.slots.items; pages = t.pages.items; order = t.order }) t.index t.used × IsListed t.slots.items t.order t.changed };
}

impl EntryTable {
    /// So many free slots.
    pub fn new(alloc: Global, entries: u32) -> Result<EntryTable, NoMemory>
        ensures none { IfOk result (λ table. entries_in table ≡ []) }
        ensures size { IfOk result (λ table. length table.slots ≡ entries) }
    {
        Ok(EntryTable {
            slots: free_slots(alloc, entries)?,
            pages: zero_pages(alloc, entries)?,
            order: UseOrder::new(alloc, entries)?,
            index: PageIndex::new(alloc, entries)?,
            used: 0,
            changed: PageSet::new(alloc, entries)?,
        })
    }

    /// How many slots there are.
    pub fn size(&self) -> u32
        ensures { result ≡ length self.now.slots }
    {
        self.slots.len() as u32
    }

    /// The slot of a page's entry.
    pub fn find(&self, id: PageId) -> Option<u32>
        ensures slot { result ≡ find_slot self.now.slots id }
        ensures there { IfSome result (λ s. holds_at self.now.slots s id ≡ true) }
        ensures entry { entry_of (entries_in self.now) id ≡ option_map_or (entry_at self.now) result None }
    {
        self.index.find(self.slots.as_slice(), id)
    }

    /// What stands in a slot.
    pub fn slot(&self, at: u32) -> Slot
        requires { at < length self.now.slots }
        ensures { result ≡ slot_at self.now.slots at }
    {
        self.slots[at as usize]
    }

    /// The page whose entry stands in a slot.
    pub fn page_at(&self, at: u32) -> Option<PageId>
        ensures { result ≡ page_in self.now.slots at }
    {
        match self.slots.get(at as usize) {
            Some(slot) => slot.page,
            None => None,
        }
    }

    /// No page has two entries.
    pub fn pages_are_apart(&self)
        ensures apart { (f s : ℕ) (id : PageId) → page_in self.now.slots f ≡ Some id → is_page id (page_in self.now.slots s) ≡ (s == f) }
        ensures named { (f : ℕ) (id : PageId) → holds_at self.now.slots f id ≡ true → page_in self.now.slots f ≡ Some id }
    {
        // The slots tell the proof what they keep.
        let _slots = &self.slots;
    }

    /// The entry in a slot is the newest.
    pub fn touch(&mut self, at: u32)
        requires { at < length self.old.slots }
        ensures slots { self.new.slots ≡ self.old.slots }
        ensures pages { self.new.pages ≡ self.old.pages }
        ensures entries { (id : PageId) → holds_at self.old.slots at id ≡ true → entries_in self.new ≡ option_map_or (λ e. newest e (entries_in self.old)) (entry_at self.old at) (entries_in self.old) }
    {
        self.order.make_newest(at);
    }

    /// A slot that is still free.
    pub fn next_free(&self) -> Option<u32>
        ensures place { is_some result ≡ nat_lt (length (entries_in self.now)) (length self.now.slots) }
        ensures free { IfSome result (λ s. (s < length self.now.slots) × (s ≡ length (entries_in self.now)) × ((slot_at self.now.slots s).page ≡ None)) }
    {
        if (self.used as usize) < self.slots.len() {
            Some(self.used)
        } else {
            None
        }
    }

    /// The oldest slot whose entry may be reclaimed.
    pub fn oldest_idle(&self) -> Option<u32>
        ensures none { IsNone result → find is_idle (entries_in self.now) ≡ None }
        ensures entry { IfSome result (λ s. find is_idle (entries_in self.now) ≡ entry_at self.now s) }
        ensures there { IfSome result (λ s. s < length self.now.slots) }
        ensures page { IfSome result (λ s. is_some (page_in self.now.slots s) ≡ true) }
    {
        let at = self.first_idle()?;
        if self.page_at(at).is_some() {
            Some(at)
        } else {
            None
        }
    }

    // The oldest slot that may be reclaimed.
    fn first_idle(&self) -> Option<u32>
        ensures entry { find is_idle (entries_in self.now) ≡ option_map_or (entry_at self.now) result None }
        ensures there { IfSome result (λ s. s < length self.now.slots) }
    {
        self.order.first_to_take(self.slots.as_slice())
    }

    /// How many entries are changed.
    pub fn changed_count(&self) -> u32
        ensures { result ≡ count_by (λ e. e.changed) (entries_in self.now) }
    {
        self.changed.len()
    }

    /// The first changed page past `after`, in the order of page set and number.
    pub fn next_changed(&self, after: Option<PageId>) -> Option<PageId>
        ensures { IsNextAmong (changed_in self.now) after result }
    {
        self.changed.next(after)
    }

    /// Makes an entry of a page in a slot. What stood there is gone.
    pub fn make(&mut self, at: u32, id: PageId)
        requires there { at < length self.old.slots }
        requires next { (slot_at self.old.slots at).page ≡ None → at ≡ length (entries_in self.old) }
        requires alone { find_slot self.old.slots id ≡ None }
        ensures size { length self.new.slots ≡ length self.old.slots }
        ensures pages { (s : ℕ) → page_in self.new.slots s ≡ cond (s == at) (Some id) (page_in self.old.slots s) }
        ensures here { holds_at self.new.slots at id ≡ true }
        ensures bytes { bytes_at self.new at ≡ None }
        ensures entries { entries_in self.new ≡ newest (fresh id) (option_map_or (λ e. without e.page (entries_in self.old)) (entry_at self.old at) (entries_in self.old)) }
    {
        let was_free = self.slots[at as usize].is_free();
        let before = self.slots[at as usize].changed_page();
        relist(&mut self.changed, before, None);
        self.index.enter(self.slots.as_slice(), at, id);
        self.slots[at as usize] = Slot::holding(id);
        self.order.make_newest(at);
        if was_free {
            self.used += 1;
        }
    }

    /// Replaces the bytes of an entry.
    pub fn write(&mut self, at: u32, from: &Page)
        requires { at < length self.old.slots }
        ensures size { length self.new.slots ≡ length self.old.slots }
        ensures pages { page_in self.new.slots ≡ page_in self.old.slots }
        ensures entries { (id : PageId) → holds_at self.old.slots at id ≡ true → entries_in self.new ≡ at_entry id (written_with from.now) (entries_in self.old) }
    {
        copy_page(from, &mut self.pages[at as usize]);
        let slot = self.slots[at as usize];
        self.put(at, slot.rewritten());
    }

    /// Takes the castout lock of an entry.
    pub fn lock(&mut self, at: u32, member: MemberId)
        requires { at < length self.old.slots }
        ensures size { length self.new.slots ≡ length self.old.slots }
        ensures pages { page_in self.new.slots ≡ page_in self.old.slots }
        ensures entries { (id : PageId) → holds_at self.old.slots at id ≡ true → entries_in self.new ≡ at_entry id (locked_by member) (entries_in self.old) }
    {
        let slot = self.slot(at);
        self.put(at, slot.locked_for(member));
    }

    /// Frees the castout lock of an entry.
    pub fn unlock(&mut self, at: u32)
        requires { at < length self.old.slots }
        ensures size { length self.new.slots ≡ length self.old.slots }
        ensures pages { page_in self.new.slots ≡ page_in self.old.slots }
        ensures entries { (id : PageId) → holds_at self.old.slots at id ≡ true → entries_in self.new ≡ at_entry id cast_out (entries_in self.old) }
    {
        let slot = self.slot(at);
        self.put(at, slot.unlocked());
    }

    /// Frees the castout locks of a member.
    pub fn free_locks(&mut self, member: MemberId)
        ensures size { length self.new.slots ≡ length self.old.slots }
        ensures pages { page_in self.new.slots ≡ page_in self.old.slots }
        ensures entries { entries_in self.new ≡ map (freed_of member) (entries_in self.old) }
    {
        for at in 0..self.size() {
            let slot = self.slot(at);
            self.put(at, slot.freed(member));
        }
    }

    /// Makes all slots free.
    pub fn clear(&mut self)
        ensures size { length self.new.slots ≡ length self.old.slots }
        ensures entries { entries_in self.new ≡ [] }
    {
        free_all(&mut self.slots);
        self.index.clear();
        self.used = 0;
        self.changed.clear();
    }

    /// Copies the bytes of an entry, if it has any.
    pub fn read(&self, at: u32, into: &mut Page) -> bool
        requires there { at < length self.now.slots }
        requires held { is_some (slot_at self.now.slots at).page ≡ true }
        ensures some { result ≡ is_some (bytes_at self.now at) }
        ensures bytes { into.new ≡ unwrap_or (bytes_at self.now at) into.old }
    {
        let filled = self.slots[at as usize].filled;
        if filled {
            copy_page(&self.pages[at as usize], into);
        }
        filled
    }

    // Changes an entry, which stays one of the same page.
    fn put(&mut self, at: u32, slot: Slot)
        requires there { at < length self.old.slots }
        requires page { slot.page ≡ (slot_at self.old.slots at).page }
        ensures slots { self.new ≡ record self.old { slots = slice_set self.old.slots at slot } }
        ensures pages { page_in self.new.slots ≡ page_in self.old.slots }
        ensures entries { (id : PageId) (change : Entry → Entry) → holds_at self.old.slots at id ≡ true → entry_in slot (slice_get self.old.pages at) ≡ option_map change (entry_at self.old at) → entries_in self.new ≡ at_entry id change (entries_in self.old) }
    {
        self.order.numbers_are_apart();
        let before = self.slots[at as usize].changed_page();
        relist(&mut self.changed, before, slot.changed_page());
        self.slots[at as usize] = slot;
    }
}

// Keeps the set of changed pages, where a slot changes that had one of these before and has one after.
fn relist(changed: &mut PageSet, before: Option<PageId>, after: Option<PageId>)
    requires same { (p q : PageId) → before ≡ Some p → after ≡ Some q → p ≡ q }
    requires there { (p : PageId) → before ≡ Some p → has changed.old p ≡ true }
    requires absent { (q : PageId) → before ≡ None → after ≡ Some q → has changed.old q ≡ false }
    requires room { (q : PageId) → before ≡ None → after ≡ Some q → 1 ≤ changed.old.room }
    ensures pages { (q : PageId) → has changed.new q ≡ (is_page_of q after || (not (is_page_of q before) && has changed.old q)) }
    ensures len { length changed.new.listed + cond (is_some before) 1 0 ≡ length changed.old.listed + cond (is_some after) 1 0 }
    ensures room { length changed.new.listed + changed.new.room ≡ length changed.old.listed + changed.old.room }
{
    match (before, after) {
        (None, Some(id)) => changed.insert(id),
        (Some(id), None) => changed.remove(id),
        (Some(_), Some(_)) => {}
        (None, None) => {}
    }
}

fn copy_page(from: &Page, into: &mut Page)
    ensures { into.new ≡ from.now }
{
    *into.bytes_mut() = *from.bytes();
}

fn zero_pages(alloc: Global, entries: u32) -> Result<Vec<Page>, NoMemory>
    ensures { IfOk result (λ pages. pages.items ≡ replicate entries (replicate page_size 0)) }
{
    let mut pages = Vec::new(alloc);
    for _ in 0..entries {
        pages.push(Page::zero(alloc)?)?;
    }
    Ok(pages)
}
