//! A tree of pages. The least page of each subtree stands at its top, and the others on two sides of a middle.
ghost use Rattle.std.specs.Prelude.{◌≡◌, ◌≢◌, ◌<◌, ◌+◌, ◌||◌, ◌&&◌, ◌∷◌, ◌++◌, [], true, false, not, length, drop, slice_get, IfSome, None, Some};
ghost use Rattle.std.specs.Option.{option_map_or};
ghost use Rattle.ds_base.specs.Pages.{same_page};
ghost use Rattle.page_tree.specs.Order.{comes_before as is_before, IsNextAmong};
ghost use Rattle.page_tree.specs.Pages.{is_in};
ghost use Rattle.page_tree.specs.Nodes.{pages_in, IsOrdered};

use crate::order::{comes_before, in_order, is_past, middle_at};
use ds_base::PageId;
use std::marker::Model;
use std::mem;

/// Pages, the earliest first.
#[cycle(tree)]
#[derive(Drop)]
pub struct Tree {
    node: Node,
}

#[cycle(tree)]
#[derive(Drop)]
enum Node {
    Leaf,
    // The least page, the first that the upper side may have, the lower side, the upper side.
    Fork(PageId, PageId, Box<Tree>, Box<Tree>),
}

/// The memory of one page in a tree.
#[derive(Drop)]
pub struct Cells {
    pub lower: Box<Tree>,
    pub upper: Box<Tree>,
}

impl Model for Tree {
    ghost use Rattle.std.specs.Prelude.{List, length};
    ghost use Rattle.ds_base.specs.declared.names.PageId.{PageId};

    ghost Value = { List PageId };

    ghost use Rattle.page_tree.specs.Nodes.{pages_in, IsOrdered};

    ghost view = { λ a. pages_in a.node };

    ghost invariant = { λ a. IsOrdered a.node };

    ghost size = { length };

    ghost use Rattle.page_tree.specs.Depth.{depth_le-length-pages_in};

    ghost size_decreases = { λ a h. depth_le-length-pages_in a.node };
}

impl Tree {
    pub fn new() -> Tree
        ensures { result ≡ [] }
    {
        Tree { node: Node::Leaf }
    }

    /// The first page.
    pub fn first(&self) -> Option<PageId>
        ensures first { result ≡ slice_get self.now 0 }
        ensures least { (f q : PageId) → result ≡ Some f → is_in q (drop 1 self.now) ≡ true → is_before f q ≡ true }
    {
        match &self.node {
            Node::Leaf => None,
            Node::Fork(least, _, _, _) => Some(*least),
        }
    }

    // Whether this is the first page.
    fn starts_with(&self, id: PageId) -> bool
        ensures first { result ≡ option_map_or (same_page id) (slice_get self.now 0) false }
        ensures gone { result ≡ true → (q : PageId) → is_in q (drop 1 self.now) ≡ (not (same_page q id) && is_in q self.now) }
    {
        match self.first() {
            Some(first) => id.is_same(first),
            None => false,
        }
    }

    /// Adds a page that isn't there. All pages have the same bits as this one from the level's on, so that the depth is bounded.
    pub fn insert(&mut self, id: PageId, level: u32, cells: Cells)
        requires level { level < 64 }
        requires absent { is_in id self.old ≡ false }
        ensures pages { (q : PageId) → is_in q self.new ≡ (same_page q id || is_in q self.old) }
        ensures len { length self.new ≡ length self.old + 1 }
    {
        match &mut self.node {
            Node::Leaf => self.node = fork(id, level, cells),
            Node::Fork(least, middle, lower, upper) => {
                let (first, later) = in_order(id, *least);
                *least = first;
                if comes_before(later, *middle) {
                    lower.insert(later, level.saturating_sub(1), cells);
                } else {
                    upper.insert(later, level.saturating_sub(1), cells);
                }
            }
        }
    }

    /// Drops the first page, and gives its memory.
    pub fn take_first(&mut self) -> Cells
        requires { slice_get self.old 0 ≢ None }
        ensures { self.new ≡ drop 1 self.old }
    {
        match &mut self.node {
            Node::Leaf => unreachable!(),
            Node::Fork(least, _, lower, upper) => {
                if let Some(next) = lower.first() {
                    *least = next;
                    return lower.take_first();
                }
                if let Some(next) = upper.first() {
                    *least = next;
                    return upper.take_first();
                }
            }
        }
        self.take_last()
    }

    // Drops the only page, and gives its memory.
    fn take_last(&mut self) -> Cells
        requires { length self.old ≡ 1 }
        ensures { self.new ≡ [] }
    {
        match mem::replace(&mut self.node, Node::Leaf) {
            Node::Leaf => unreachable!(),
            Node::Fork(_, _, lower, upper) => Cells { lower, upper },
        }
    }

    /// Drops a page, and gives its memory.
    pub fn remove(&mut self, id: PageId) -> Cells
        requires { is_in id self.old ≡ true }
        ensures pages { (q : PageId) → is_in q self.new ≡ (not (same_page q id) && is_in q self.old) }
        ensures len { length self.new + 1 ≡ length self.old }
    {
        if self.starts_with(id) {
            return self.take_first();
        }
        match &mut self.node {
            Node::Leaf => unreachable!(),
            Node::Fork(_, middle, lower, upper) => {
                if comes_before(id, *middle) {
                    return lower.remove(id);
                }
                upper.remove(id)
            }
        }
    }

    /// The first page past `after`.
    pub fn next(&self, after: Option<PageId>) -> Option<PageId>
        ensures { IsNextAmong (λ q. is_in q self.now) after result }
    {
        match &self.node {
            Node::Leaf => None,
            Node::Fork(least, middle, lower, upper) => {
                if is_past(after, *least) {
                    return Some(*least);
                }
                if !is_past(after, *middle) {
                    return upper.next(after);
                }
                if let Some(next) = lower.next(after) {
                    return Some(next);
                }
                upper.first()
            }
        }
    }
}

// A node with one page.
fn fork(id: PageId, level: u32, cells: Cells) -> Node
    requires { level < 64 }
    ensures pages { pages_in result ≡ id ∷ [] }
    ensures ordered { IsOrdered result }
{
    let mut lower = cells.lower;
    let mut upper = cells.upper;
    *lower = Tree::new();
    *upper = Tree::new();
    Node::Fork(id, middle_at(id, level), lower, upper)
}
