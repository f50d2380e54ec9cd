//! A set of pages that takes no memory once it is made.
ghost use Rattle.std.specs.Prelude.{◌≡◌, ℕ, ◌+◌, ◌≤◌, ◌||◌, ◌&&◌, [], true, false, not, drop, length, IfOk};
ghost use Rattle.ds_base.specs.Pages.{same_page};
ghost use Rattle.page_tree.specs.Order.{IsNextAmong};
ghost use Rattle.page_tree.specs.Pages.{has};

use crate::tree::{Cells, Tree};
use ds_base::{NoMemory, PageId};
use std::alloc::Global;
use std::marker::Model;

/// How many of the lower bits of a page's name are halved at the top of the tree: all but one of 48.
const TOP: u32 = 47;

/// A set of pages, in the order of page set and number.
///
/// All moves take a time that grows with the depth of a tree, at most 49, and none takes memory.
#[derive(Drop)]
pub struct PageSet {
    tree: Tree,
    spare: Vec<Cells>,
    len: u32,
}

impl Model for PageSet {
    ghost use Rattle.std.specs.Prelude.{◌≡◌, ◌+◌, ◌≤◌, ◌<◌, ◌^◌, length};
    ghost use Rattle.std.specs.Vec.{vec_capacity};
    ghost use Rattle.page_tree.specs.Pages.{Pages};

    ghost Value = { Pages };

    ghost view = { λ s. record { listed = s.tree; room = length s.spare.items } };

    ghost invariant = { λ s. (s.len ≡ length s.tree) × (length s.spare.items + s.len ≤ vec_capacity s.spare) × (length s.spare.items + s.len < 2 ^ 32) };
}

impl PageSet {
    /// An empty set with room for so many pages.
    pub fn new(alloc: Global, room: u32) -> Result<PageSet, NoMemory>
        ensures none { IfOk result (λ set. set.listed ≡ []) }
        ensures room { IfOk result (λ set. set.room ≡ room) }
    {
        Ok(PageSet {
            tree: Tree::new(),
            spare: new_cells(alloc, room)?,
            len: 0,
        })
    }

    /// How many pages there are.
    pub fn len(&self) -> u32
        ensures { result ≡ length self.now.listed }
    {
        self.len
    }

    /// Adds a page that isn't there.
    pub fn insert(&mut self, id: PageId)
        requires room { 1 ≤ self.old.room }
        requires absent { has self.old id ≡ false }
        ensures pages { (q : PageId) → has self.new q ≡ (same_page q id || has self.old q) }
        ensures len { length self.new.listed ≡ length self.old.listed + 1 }
        ensures room { self.new.room + 1 ≡ self.old.room }
    {
        if let Some(cells) = self.spare.pop() {
            self.tree.insert(id, TOP, cells);
            self.len += 1;
        }
    }

    /// Drops a page.
    pub fn remove(&mut self, id: PageId)
        requires { has self.old id ≡ true }
        ensures pages { (q : PageId) → has self.new q ≡ (not (same_page q id) && has self.old q) }
        ensures len { length self.new.listed + 1 ≡ length self.old.listed }
        ensures room { self.new.room ≡ self.old.room + 1 }
    {
        let cells = self.tree.remove(id);
        self.spare.push_reserved(cells);
        self.len -= 1;
    }

    /// Drops all pages.
    pub fn clear(&mut self)
        ensures none { self.new.listed ≡ [] }
        ensures room { self.new.room ≡ self.old.room + length self.old.listed }
    {
        for _ in 0..self.len() {
            self.drop_first();
        }
    }

    // Drops the first page.
    fn drop_first(&mut self)
        requires { 1 ≤ length self.old.listed }
        ensures pages { self.new.listed ≡ drop 1 self.old.listed }
        ensures room { self.new.room ≡ self.old.room + 1 }
    {
        let cells = self.tree.take_first();
        self.spare.push_reserved(cells);
        self.len -= 1;
    }

    /// The first page past `after`.
    pub fn next(&self, after: Option<PageId>) -> Option<PageId>
        ensures { IsNextAmong (has self.now) after result }
    {
        self.tree.next(after)
    }
}

fn new_cells(alloc: Global, count: u32) -> Result<Vec<Cells>, NoMemory>
    ensures { IfOk result (λ cells. length cells.items ≡ count) }
{
    let mut cells = Vec::new(alloc);
    for _ in 0..count {
        let lower = Box::new(alloc, Tree::new())?;
        let upper = Box::new(alloc, Tree::new())?;
        cells.push(Cells { lower, upper })?;
    }
    Ok(cells)
}
