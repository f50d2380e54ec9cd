ghost use Rattle.std.specs.Prelude.{◌≡◌, ℕ, ◌+◌, ◌-◌, ◌<◌, ◌≤◌, ◌^◌, ◌&&◌, true, false, IfOk, IfSome, IsSome, IsNone, Some, length, replicate, slice_get};
ghost use Rattle.member_pool.specs.Frames.{free_frame, find_page, is_unpinned};
ghost use Rattle.member_pool.specs.Heads.{
  all_free,
  head_of,
  with_head,
  placed_in,
  freed,
  pinned_to,
  marked,
  written,
  victim_in,
  free_in,
  has_free,
  first_to_write as first_written,
  is_first_to_write as is_first_written,
  has_changed as has_changed_set,
};
ghost use Rattle.member_pool.specs.Marks.{entry_of};
ghost use Rattle.member_pool.specs.Sets.{has_set, any_set};

use crate::Frame;
use crate::counts::SetCounts;
use crate::listed::{first_of, list, new_list, unlist};
use crate::sets::SetMask;
use ds_base::{NoMemory, PageId, TableId};
use page_index::{PageIndex, UseOrder};
use std::alloc::Global;
use std::marker::Model;
use write_order::{Rank, WriteKey};

/// The heads of a member's frames: which page each holds, its marks and pins, and the order of use. The bytes of the
/// pages stand elsewhere.
///
/// A frame is named by its number, below the size of the pool. No call but `new` takes memory.
#[derive(Drop)]
pub struct Heads {
    frames: Vec<Frame>,
    order: UseOrder,
    places: PageIndex,
    listed: Vec<u16>,
    counts: SetCounts,
}

impl Model for Heads {
    ghost use Rattle.std.specs.Prelude.{vec_capacity};
    ghost use Rattle.member_pool.specs.Heads.{HeadState};
    ghost use Rattle.member_pool.specs.Kept.{AreKept};

    ghost Value = { HeadState };

    ghost view = { λ h. record { frames = h.frames.items; order = h.order } };

    ghost invariant = { λ h. AreKept h.frames.items h.order h.places h.listed.items (vec_capacity h.listed) h.counts };
}

impl Heads {
    /// The heads of free frames.
    pub fn new(alloc: Global, frames: u16) -> Result<Heads, NoMemory>
        requires { 1 ≤ frames }
        ensures { IfOk result (λ heads. heads ≡ all_free frames) }
    {
        Ok(Heads {
            frames: free_frames(alloc, frames)?,
            order: UseOrder::new(alloc, frames as u32)?,
            places: PageIndex::new(alloc, frames as u32)?,
            listed: new_list(alloc, frames)?,
            counts: SetCounts::new(),
        })
    }

    /// Makes all frames free, as `new` leaves them.
    pub fn reset(&mut self)
        ensures { self.new ≡ all_free (length self.old.frames) }
    {
        clear_frames(&mut self.frames);
        self.order.reset(self.frames.len() as u32);
        self.listed.clear();
        self.counts.clear();
    }

    /// How many frames there are.
    pub fn len(&self) -> u16
        ensures { result ≡ length self.now.frames }
    {
        self.frames.len() as u16
    }

    /// What a frame holds, and how it is used.
    pub fn frame(&self, frame: u16) -> Frame
        requires { frame < length self.now.frames }
        ensures { result ≡ head_of self.now frame }
    {
        self.frames[frame as usize]
    }

    /// The frame that holds a page.
    pub fn find(&self, id: PageId) -> Option<u16>
        ensures { result ≡ find_page self.now.frames id }
    {
        as_frame(self.places.find(self.frames.as_slice(), id))
    }

    /// Places a page in a frame. All marks are clear, and the frame is the newest.
    pub fn place(&mut self, frame: u16, id: PageId)
        requires there { frame < length self.old.frames }
        requires unpinned { is_unpinned (head_of self.old frame) ≡ true }
        requires alone { (f : ℕ) → find_page self.old.frames id ≡ Some f → f ≡ frame }
        ensures { self.new ≡ placed_in self.old frame id }
    {
        self.clear_mark(frame);
        self.set_page(frame, id);
    }

    /// Makes a frame free. It counts as used longest ago.
    pub fn drop_page(&mut self, frame: u16)
        requires { frame < length self.old.frames }
        ensures { self.new ≡ freed self.old frame }
    {
        self.clear_mark(frame);
        self.set_free(frame);
    }

    /// Keeps the page of a frame from being taken, until as many calls of `unpin`. The frame is the newest.
    pub fn pin(&mut self, frame: u16)
        requires there { frame < length self.old.frames }
        requires placed { IsSome (head_of self.old frame).page }
        requires room { (head_of self.old frame).pins < 2 ^ 32 - 1 }
        ensures { self.new ≡ pinned_to self.old frame ((head_of self.old frame).pins + 1) }
    {
        let held = self.frames[frame as usize];
        self.frames[frame as usize] = Frame {
            pins: held.pins + 1,
            ..held
        };
        self.order.make_newest(frame as u32);
    }

    /// Takes one pin back. The order of use stays.
    pub fn unpin(&mut self, frame: u16)
        requires there { frame < length self.old.frames }
        requires pinned { 0 < (head_of self.old frame).pins }
        ensures { self.new ≡ with_head self.old frame (record (head_of self.old frame) { pins = (head_of self.old frame).pins - 1 }) }
    {
        let held = self.frames[frame as usize];
        self.frames[frame as usize] = Frame {
            pins: held.pins - 1,
            ..held
        };
    }

    /// Marks a page that was changed, with its place in the write order. Where it is marked already, it keeps its place.
    pub fn mark_changed(&mut self, frame: u16, rank: Rank)
        requires there { frame < length self.old.frames }
        requires placed { IsSome (head_of self.old frame).page }
        ensures { self.new ≡ marked self.old frame rank }
    {
        if self.frames[frame as usize].changed {
            return;
        }
        self.set_mark(frame, rank);
    }

    /// Clears the mark of a page that was written.
    pub fn mark_written(&mut self, frame: u16)
        requires there { frame < length self.old.frames }
        requires placed { IsSome (head_of self.old frame).page }
        ensures { self.new ≡ written self.old frame }
    {
        self.clear_mark(frame);
    }

    /// Sets the mark of a page whose bytes were read into the frame.
    pub fn set_filled(&mut self, frame: u16, filled: bool)
        requires there { frame < length self.old.frames }
        requires placed { IsSome (head_of self.old frame).page }
        ensures { self.new ≡ with_head self.old frame (record (head_of self.old frame) { filled = filled }) }
    {
        let held = self.frames[frame as usize];
        self.frames[frame as usize] = Frame { filled, ..held };
    }

    /// Sets the mark of a frame that is registered for its page, as far as the member knows.
    pub fn set_registered(&mut self, frame: u16, registered: bool)
        requires there { frame < length self.old.frames }
        requires placed { IsSome (head_of self.old frame).page }
        ensures { self.new ≡ with_head self.old frame (record (head_of self.old frame) { registered = registered }) }
    {
        let held = self.frames[frame as usize];
        self.frames[frame as usize] = Frame { registered, ..held };
    }

    /// The frame to be taken next: the unpinned one that was used longest ago. A free frame counts as used longest ago.
    pub fn victim(&self) -> Option<u16>
        ensures oldest { result ≡ victim_in self.now }
        ensures there { IfSome result (λ f. f < length self.now.frames) }
        ensures unpinned { IfSome result (λ f. is_unpinned (head_of self.now f) ≡ true) }
        ensures none { IsNone result → (f : ℕ) → f < length self.now.frames → is_unpinned (head_of self.now f) ≡ false }
    {
        as_frame(self.order.first_to_take(self.frames.as_slice()))
    }

    /// A free frame: the one that was freed last, and else the least number.
    pub fn free(&self) -> Option<u16>
        ensures free { result ≡ free_in self.now }
        ensures there { IfSome result (λ f. f < length self.now.frames) }
    {
        match self.order.oldest() {
            Some(oldest) => as_frame(self.if_free(oldest)),
            None => None,
        }
    }

    pub fn has_free(&self) -> bool
        ensures { result ≡ has_free self.now }
    {
        self.free().is_some()
    }

    /// The changed frame of a table that is written before all others.
    pub fn first_to_write(&self, table: TableId) -> Option<u16>
        ensures { result ≡ first_written self.now table }
    {
        first_of(
            self.listed.as_slice(),
            self.frames.as_slice(),
            table.number(),
        )
    }

    /// Whether the frame is changed, and no other of its table is written before it.
    pub fn is_first_to_write(&self, frame: u16) -> bool
        requires { frame < length self.now.frames }
        ensures { result ≡ is_first_written self.now frame }
    {
        match self.frames[frame as usize].entry() {
            Some(key) => self.is_first_at(frame, key),
            None => false,
        }
    }

    /// Whether a frame of the page set, 1 to 128, is changed.
    pub fn has_changed(&self, set: u16) -> bool
        ensures { result ≡ has_changed_set self.now set }
    {
        self.counts.has(set)
    }

    /// The page sets of which a frame is changed.
    pub fn changed_sets(&self) -> SetMask
        ensures { (set : ℕ) → has_set result set ≡ has_changed_set self.now set }
    {
        self.counts.sets()
    }

    /// Whether a frame of one of these page sets is changed.
    pub fn has_changed_in(&self, sets: &SetMask) -> bool
        ensures { result ≡ any_set (λ set. has_changed_set self.now set && has_set sets.now set) }
    {
        self.changed_sets().meets(sets)
    }

    // The frame that was used longest ago, if it is free.
    fn if_free(&self, oldest: u32) -> Option<u32>
        requires { slice_get self.now.order 0 ≡ Some oldest }
        ensures free { result ≡ free_in self.now }
        ensures there { IfSome result (λ f. f < length self.now.frames) }
    {
        match self.frames[oldest as usize].page {
            None => Some(oldest),
            Some(_) => None,
        }
    }

    // Whether no changed page of the table is written before this one, which the frame holds.
    fn is_first_at(&self, frame: u16, key: WriteKey) -> bool
        requires { entry_of (head_of self.now frame) ≡ Some key }
        ensures { result ≡ is_first_written self.now frame }
    {
        let first = first_of(self.listed.as_slice(), self.frames.as_slice(), key.table());
        match first {
            Some(first) => first == frame,
            None => false,
        }
    }

    // Marks an unchanged page.
    fn set_mark(&mut self, frame: u16, rank: Rank)
        requires there { frame < length self.old.frames }
        requires placed { IsSome (head_of self.old frame).page }
        requires unchanged { (head_of self.old frame).changed ≡ false }
        ensures { self.new ≡ with_head self.old frame (record (head_of self.old frame) { changed = true; rank = rank }) }
    {
        let held = self.frames[frame as usize];
        let Some(page) = held.page else {
            unreachable!()
        };
        list(
            &mut self.listed,
            self.frames.as_slice(),
            frame,
            WriteKey { rank, page },
        );
        self.counts.add(page.set);
        self.frames[frame as usize] = Frame {
            changed: true,
            rank,
            ..held
        };
    }

    // Clears the mark of the frame, if it has one.
    fn clear_mark(&mut self, frame: u16)
        requires { frame < length self.old.frames }
        ensures { self.new ≡ written self.old frame }
    {
        let held = self.frames[frame as usize];
        match held.entry() {
            Some(key) => self.take_mark(frame, key),
            None => {
                self.frames[frame as usize] = Frame {
                    changed: false,
                    ..held
                };
            }
        }
    }

    // Clears the mark of a changed page.
    fn take_mark(&mut self, frame: u16, key: WriteKey)
        requires there { frame < length self.old.frames }
        requires changed { entry_of (head_of self.old frame) ≡ Some key }
        ensures { self.new ≡ written self.old frame }
    {
        unlist(&mut self.listed, self.frames.as_slice(), frame, key);
        self.counts.take(key.page.set);
        let held = self.frames[frame as usize];
        self.frames[frame as usize] = Frame {
            changed: false,
            ..held
        };
    }

    // Places a page in an unchanged frame.
    fn set_page(&mut self, frame: u16, id: PageId)
        requires there { frame < length self.old.frames }
        requires unchanged { (head_of self.old frame).changed ≡ false }
        requires alone { (f : ℕ) → find_page self.old.frames id ≡ Some f → f ≡ frame }
        ensures { self.new ≡ placed_in self.old frame id }
    {
        self.places.enter(self.frames.as_slice(), frame as u32, id);
        self.frames[frame as usize] = Frame::holding(id);
        self.order.make_newest(frame as u32);
    }

    // Makes an unchanged frame free.
    fn set_free(&mut self, frame: u16)
        requires there { frame < length self.old.frames }
        requires unchanged { (head_of self.old frame).changed ≡ false }
        ensures { self.new ≡ freed self.old frame }
    {
        self.frames[frame as usize] = Frame::free();
        self.order.make_oldest(frame as u32);
    }
}

// The number of a frame, of which there are fewer than 65,536.
fn as_frame(at: Option<u32>) -> Option<u16>
    requires { IfSome at (λ f. f < 2 ^ 16) }
    ensures { result ≡ at }
{
    match at {
        Some(at) => Some(at as u16),
        None => None,
    }
}

fn free_frames(alloc: Global, frames: u16) -> Result<Vec<Frame>, NoMemory>
    ensures { IfOk result (λ all. all.items ≡ replicate frames free_frame) }
{
    Ok(vec![in alloc; Frame::free(); frames as usize]?)
}

fn clear_frames(frames: &mut Vec<Frame>)
    ensures { frames.new.items ≡ replicate (length frames.old.items) free_frame }
{
    let count = frames.len();
    frames.clear();
    for _ in 0..count {
        frames.push_reserved(Frame::free());
    }
}
