ghost use Rattle.std.specs.Prelude.{◌≡◌, ℕ, ◌+◌, ◌-◌, ◌<◌, ◌≤◌, ◌^◌, true, false, Some, IfOk, IfSome, IsSome, IsNone, length, replicate, slice_get};
ghost use Rattle.std.specs.Borrow.{sem};
ghost use Rattle.std.specs.List.{range_with_len};
ghost use Rattle.page_format.specs.Fields.{page_size};
ghost use Rattle.member_pool.specs.Frames.{free_frame, find_page, is_unpinned};
ghost use Rattle.member_pool.specs.Pools.{frame_of, with_frame, placed, dropped, pinned, marked_in, victim_of};
ghost use Rattle.member_pool.specs.Lending.{LendsPage};

use crate::{Frame, Heads};
use ds_base::{NoMemory, PageId};
use page_format::Page;
use std::alloc::Global;
use std::marker::Model;
use write_order::Rank;

/// The page frames of a member.
///
/// A frame is named by its number, below the size of the pool. No call but `new` takes memory.
#[derive(Drop)]
pub struct Pool {
    heads: Heads,
    pages: Vec<Page>,
}

impl Model for Pool {
    ghost use Rattle.std.specs.Prelude.{◌≡◌, length};
    ghost use Rattle.member_pool.specs.Pools.{PoolState};

    ghost Value = { PoolState };

    ghost view = { λ p. record { pages = p.pages.items; frames = p.heads.frames; order = p.heads.order } };

    ghost invariant = { λ p. length p.pages.items ≡ length p.heads.frames };
}

impl Pool {
    /// A pool of free frames.
    pub fn new(alloc: Global, frames: u16) -> Result<Pool, NoMemory>
        requires { 1 ≤ frames }
        ensures pages { IfOk result (λ pool. pool.pages ≡ replicate frames (replicate page_size 0)) }
        ensures frames { IfOk result (λ pool. pool.frames ≡ replicate frames free_frame) }
        ensures order { IfOk result (λ pool. pool.order ≡ range_with_len 0 frames) }
    {
        Ok(Pool {
            heads: Heads::new(alloc, frames)?,
            pages: zero_pages(alloc, frames)?,
        })
    }

    /// Makes all frames free, as `new` leaves them. The bytes stay.
    pub fn reset(&mut self)
        ensures pages { self.new.pages ≡ self.old.pages }
        ensures frames { self.new.frames ≡ replicate (length self.old.frames) free_frame }
        ensures order { self.new.order ≡ range_with_len 0 (length self.old.frames) }
    {
        self.heads.reset();
    }

    /// The frame that holds a page.
    pub fn find(&self, id: PageId) -> Option<u16>
        ensures { result ≡ find_page self.now.frames id }
    {
        self.heads.find(id)
    }

    /// How many frames there are.
    pub fn len(&self) -> u16
        ensures { result ≡ length self.now.frames }
    {
        self.heads.len()
    }

    /// What a frame holds, and how it is used.
    pub fn frame(&self, frame: u16) -> Frame
        requires { frame < length self.now.frames }
        ensures { result ≡ frame_of self.now frame }
    {
        self.heads.frame(frame)
    }

    pub fn page(&self, frame: u16) -> &Page
        requires { frame < length self.now.frames }
        ensures { slice_get self.now.pages frame ≡ Some result.now }
    {
        &self.pages[frame as usize]
    }

    /// All pages, by the numbers of their frames.
    pub fn pages(&self) -> &[Page]
        ensures { result.now ≡ self.now.pages }
    {
        self.pages.as_slice()
    }

    /// The page, to be filled or changed in place.
    pub fn page_mut(&mut self, frame: u16) -> &mut Page
        requires { frame < length self.old.frames }
        ensures* writes_back { sem 𝓛 (LendsPage self.entry frame result) }
        ensures value { slice_get self.old.pages frame ≡ Some result.now }
    {
        &mut self.pages[frame as usize]
    }

    /// Places a page in a frame, whose bytes stay. Both marks are clear, and the frame is the newest.
    pub fn place(&mut self, frame: u16, id: PageId)
        requires there { frame < length self.old.frames }
        requires unpinned { is_unpinned (frame_of self.old frame) ≡ true }
        requires alone { (f : ℕ) → find_page self.old.frames id ≡ Some f → f ≡ frame }
        ensures { self.new ≡ placed self.old frame id }
    {
        self.heads.place(frame, id);
    }

    /// Makes a frame free. It counts as used longest ago.
    pub fn drop_page(&mut self, frame: u16)
        requires { frame < length self.old.frames }
        ensures { self.new ≡ dropped self.old frame }
    {
        self.heads.drop_page(frame);
    }

    /// Keeps the page of a frame from being taken, until as many calls of `unpin`. The frame is the newest.
    pub fn pin(&mut self, frame: u16)
        requires there { frame < length self.old.frames }
        requires placed { IsSome (frame_of self.old frame).page }
        requires room { (frame_of self.old frame).pins < 2 ^ 32 - 1 }
        ensures { self.new ≡ pinned self.old frame ((frame_of self.old frame).pins + 1) }
    {
        self.heads.pin(frame);
    }

    /// Takes one pin back. The order of use stays.
    pub fn unpin(&mut self, frame: u16)
        requires there { frame < length self.old.frames }
        requires pinned { 0 < (frame_of self.old frame).pins }
        ensures { self.new ≡ with_frame self.old frame (record (frame_of self.old frame) { pins = (frame_of self.old frame).pins - 1 }) }
    {
        self.heads.unpin(frame);
    }

    /// Marks a page that was changed, with its place in the write order. Where it is marked already, it keeps its place.
    pub fn mark_changed(&mut self, frame: u16, rank: Rank)
        requires there { frame < length self.old.frames }
        requires placed { IsSome (frame_of self.old frame).page }
        ensures { self.new ≡ marked_in self.old frame rank }
    {
        self.heads.mark_changed(frame, rank);
    }

    /// Sets the mark of a page that was changed. It has the place in the write order that it had last, at first that of
    /// a heap page.
    pub fn set_changed(&mut self, frame: u16, changed: bool)
        requires there { frame < length self.old.frames }
        requires placed { IsSome (frame_of self.old frame).page }
        ensures { self.new ≡ with_frame self.old frame (record (frame_of self.old frame) { changed = changed }) }
    {
        if changed {
            let rank = self.heads.frame(frame).rank;
            self.heads.mark_changed(frame, rank);
        } else {
            self.heads.mark_written(frame);
        }
    }

    pub fn changed(&self, frame: u16) -> bool
        requires { frame < length self.now.frames }
        ensures { result ≡ (frame_of self.now frame).changed }
    {
        self.heads.frame(frame).changed
    }

    /// Sets the mark of a page whose bytes were read into the frame.
    pub fn set_filled(&mut self, frame: u16, filled: bool)
        requires there { frame < length self.old.frames }
        requires placed { IsSome (frame_of self.old frame).page }
        ensures { self.new ≡ with_frame self.old frame (record (frame_of self.old frame) { filled = filled }) }
    {
        self.heads.set_filled(frame, filled);
    }

    pub fn filled(&self, frame: u16) -> bool
        requires { frame < length self.now.frames }
        ensures { result ≡ (frame_of self.now frame).filled }
    {
        self.heads.frame(frame).filled
    }

    /// The frame to be taken next: the unpinned one that was used longest ago. A free frame counts as used longest ago.
    pub fn victim(&self) -> Option<u16>
        ensures oldest { result ≡ victim_of self.now }
        ensures there { IfSome result (λ f. f < length self.now.frames) }
        ensures unpinned { IfSome result (λ f. is_unpinned (frame_of self.now f) ≡ true) }
        ensures none { IsNone result → (f : ℕ) → f < length self.now.frames → is_unpinned (frame_of self.now f) ≡ false }
    {
        self.heads.victim()
    }
}

fn zero_pages(alloc: Global, frames: u16) -> Result<Vec<Page>, NoMemory>
    ensures { IfOk result (λ pages. pages.items ≡ replicate frames (replicate page_size 0)) }
{
    let mut pages = Vec::new(alloc);
    for _ in 0..frames {
        pages.push(Page::zero(alloc)?)?;
    }
    Ok(pages)
}
